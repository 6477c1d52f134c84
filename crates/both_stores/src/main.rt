// Serves the same lists of requests on two monitors with rung labels, one over the packed store and one over the chained
// store, and compares everything that they answer and leave.
#![tactic(auto)]

mod compare;
mod counts;
mod draw;

use chained::{Cell, Chained};
use compare::{Difference, MOST_REQUESTS, PLACES, Run, first_difference};
use counts::Counts;
use draw::Draw;
use labels::Rung;
use monitor::{Monitor, Request, ShortBuffer};
use packed::Packed;
use rung_requests::blanks::{NO_EVENT, no_place};
use rung_requests::predicates::ALL;
use rung_requests::{delete, example, insert, open, rung, sealed, table_record};
use sessions::Session;
use stores::{Plan, Row, Store};
use tables::{SecondRule, TableRecord};

// A row and a cell as they are lent, holding what a new store forgets.
const ROW: Row = Row {
    key: 7,
    first: -7,
    second: 77,
};

const CELL: Cell = Cell { row: ROW, next: 99 };

const DRAWN_LISTS: usize = 120;

// The first two are those of the worked example. In the fifth the label of the first field does not flow to the table's.
fn all_records() -> [TableRecord<Rung>; 6] {
    let [wells, notes] = example::records();
    [
        wells,
        notes,
        table_record(2, 2, SecondRule::Meet(rung(4))),
        table_record(3, 1, SecondRule::Join(rung(2))),
        table_record(1, 3, SecondRule::Own),
        table_record(0, 0, SecondRule::Own),
    ]
}

// For a table that has one key left.
fn last_keys() -> [Request<Rung>; 5] {
    let open = open(0, 0, 7);
    let insert = insert(0, 0, sealed(0, 0), sealed(0, 0));
    [open, insert, insert, delete(0, 0, ALL), insert]
}

// A list of requests, and what it is served on: new stores with these limits, once so many keys of the first table are spent,
// and these records.
#[derive(Clone, Copy)]
struct List<'a> {
    number: usize,
    limits: &'a [usize],
    spent: usize,
    records: &'a [TableRecord<Rung>],
    requests: &'a [Request<Rung>],
}

impl List<'_> {
    // Keys are spent by rows that are added and removed. Nothing is kept on the heap, so nothing can be lacking there.
    fn serve<S: Store + Drop>(&self, mut store: S) -> Result<Run<S>, ShortBuffer> {
        for _ in 0..self.spent {
            let _ = store.add(0, 0, 0);
            let _ = store.remove(0, 0);
        }
        let mut sessions = [Session::closed(), Session::closed(), Session::closed()];
        let mut events = [NO_EVENT; MOST_REQUESTS];
        let mut places = [no_place(); PLACES];
        let mut monitor = Monitor {
            sessions: &mut sessions,
            records: self.records,
            store: &mut store,
        };
        monitor.serve_all(self.requests, &mut events, &mut places)?;
        Ok(Run {
            store,
            sessions,
            events,
            places,
        })
    }

    // Serves the list over both stores.
    fn play(&self, counts: &mut Counts) -> anyhow::Result<()> {
        let mut rows = [ROW; 12];
        let packed = Packed::new(Plan::of(self.limits)?, &mut rows);
        let left = self.serve(packed)?;
        let mut cells = [CELL; 12];
        let chained = Chained::new(Plan::of(self.limits)?, &mut cells);
        let right = self.serve(chained)?;
        if let Some(spot) = first_difference(self.requests, &left, &right) {
            let list = self.number;
            return Err(Difference { list, spot }.into());
        }
        counts.count(self.requests, &left.events);
        Ok(())
    }
}

// Lists 1 to 120, over five tables. Of the tables that are asked for, number 5 has a record alone and number 6 nothing; in
// every second list the last two records are not lent, and number 4 is a table without a record.
fn play_drawn(counts: &mut Counts, records: &[TableRecord<Rung>; 6]) -> anyhow::Result<()> {
    let mut draw = Draw::new(20);
    let mut requests = [open(0, 0, 0); MOST_REQUESTS];
    for number in 1..=DRAWN_LISTS {
        draw.requests(&mut requests);
        let list = List {
            number,
            limits: &[3, 2, 4, 2, 1],
            spent: 0,
            records: if number % 2 == 0 {
                &records[..4]
            } else {
                records
            },
            requests: &requests,
        };
        list.play(counts)?;
    }
    Ok(())
}

fn run(rt: &HostRuntime) -> anyhow::Result<()> {
    let records = all_records();
    let mut counts = Counts::default();
    let worked_example = List {
        number: 0,
        limits: &[2, 1],
        spent: 0,
        records: &records[..2],
        requests: &example::requests(-250),
    };
    worked_example.play(&mut counts)?;
    play_drawn(&mut counts, &records)?;
    let single_key = List {
        number: DRAWN_LISTS + 1,
        limits: &[1],
        spent: 999_999,
        records: &records,
        requests: &last_keys(),
    };
    single_key.play(&mut counts)?;
    println!(rt;
        "Each list of requests is served with rung labels over the packed store and over the chained store, from new stores and"
    )?;
    println!(rt;
        "closed sessions, and every answer, label, clearance, place, session and row is compared."
    )?;
    println!(rt;
        "The lists are the worked example, 120 that are drawn, and one on a table with a single key left, where alone 13 comes."
    )?;
    println!(rt; "{counts}")?;
    println!(rt; "The same over both stores.")?;
    Ok(())
}

fn main(rt: HostRuntime) -> anyhow::Result<()> {
    run(&rt)
}
