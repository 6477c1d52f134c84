// Plays two short runs of requests with rung labels, one on sessions alone and one on two tables, and prints what each
// request answers and leaves, as the host sees it.
#![tactic(auto)]

mod play;
mod show;
#[cfg(test)]
mod tests;

use labels::Rung;
use monitor::Answer;
use packed::Packed;
use play::Host;
use rung_cases::{Ask, Request, blank_place, standing_of};
use rung_requests::example;
use rung_requests::predicates::{ALL, KEY_1, LOW_SECONDS};
use sessions::Session;
use show::{Reply, Standing};
use stores::{Plan, Row};
use tables::{Predicate, Range};
use wording::show as shown;

const MIDDLE_SECONDS: Predicate = Predicate {
    second: Some(Range {
        low: -100,
        high: 100,
    }),
    ..ALL
};

const ON_SESSIONS: &[Request] = &[
    Request(1, Ask::Raise(1)),
    Request(0, Ask::Open(1, 5)),
    Request(1, Ask::Open(0, 3)),
    Request(0, Ask::Raise(3)),
    Request(0, Ask::Seal(-250, 4)),
    Request(0, Ask::Seal(7, 2)),
    Request(1, Ask::Unseal(4, -250)),
    Request(1, Ask::Raise(2)),
    Request(1, Ask::Lower(1)),
    Request(1, Ask::Lower(2)),
    Request(0, Ask::Unseal(4, -250)),
    Request(0, Ask::Raise(6)),
    Request(0, Ask::Raise(8)),
    Request(2, Ask::Raise(1)),
];

const ON_TABLES: &[Request] = &[
    Request(0, Ask::Open(0, 7)),
    Request(1, Ask::Open(0, 3)),
    Request(0, Ask::Insert(0, (1, 4), (4, -250))),
    Request(1, Ask::Select(0, LOW_SECONDS, 4)),
    Request(1, Ask::Select(0, ALL, 4)),
    Request(1, Ask::Unseal(4, -250)),
    Request(1, Ask::Insert(1, (0, 1), (0, 1))),
    Request(0, Ask::Delete(0, LOW_SECONDS)),
    Request(0, Ask::Insert(0, (2, 4), (0, 9))),
    Request(0, Ask::Delete(0, KEY_1)),
    Request(0, Ask::Insert(0, (0, 0), (2, 5))),
    Request(0, Ask::Insert(0, (0, 2), (2, 5))),
    Request(0, Ask::Insert(0, (1, 6), (3, -40))),
    Request(0, Ask::Insert(0, (1, 6), (3, -41))),
    Request(0, Ask::Select(0, MIDDLE_SECONDS, 4)),
    Request(0, Ask::Select(0, ALL, 1)),
    Request(0, Ask::Insert(2, (0, 1), (0, 1))),
];

fn play_all(rt: &HostRuntime, host: &mut Host, requests: &[Request]) -> anyhow::Result<()> {
    println!(rt; "label  clearance  request -> answer")?;
    for request in requests {
        let Request(session, ask) = *request;
        let answer = host.serve(*request);
        let standing = Standing(standing_of(host.sessions, session));
        println!(rt; "{standing}  {request} -> {}", Reply(ask, answer))?;
        if let Ok(Answer::Filled(count)) = answer {
            for place in host.places.iter().take(count) {
                println!(rt; "                    {}", shown::<Rung, _>(*place))?;
            }
        }
    }
    Ok(())
}

fn run(rt: &HostRuntime) -> anyhow::Result<()> {
    let records = example::records();
    let mut sessions = [Session::closed(), Session::closed()];
    let mut rows = [Row::default(); 3];
    let mut places = [blank_place(); 4];
    let mut host = Host {
        sessions: &mut sessions,
        records: &records,
        store: Packed::new(Plan::of(&[2, 1])?, &mut rows),
        places: &mut places,
    };
    println!(rt; "Labels are rungs 0 to 7; a:v is the value v sealed under the label a.")?;
    println!(rt;
        "Two sessions, closed at first, whose labels rise as they read, under their clearances.\n"
    )?;
    play_all(rt, &mut host, ON_SESSIONS)?;
    println!(rt;
        "\nThen on two tables. Table 0: label 2, first fields 1, second fields by their first, limit 2."
    )?;
    println!(rt; "Table 1: label 0, first fields 0, second fields 5, limit 1.\n")?;
    play_all(rt, &mut host, ON_TABLES)
}

fn main(rt: HostRuntime) -> anyhow::Result<()> {
    run(&rt)
}
