// The cases of `rung_cases`, served by the calls of the sessions and of the tables themselves.
use super::play::{Fault, Host};
use labels::Rung;
use packed::Packed;
use rung_cases::cases::{
    DELETING, INSERTING, KEYS_SPENT, OPENING_RAISING_LOWERING, REOPENING, SEALING_UNSEALING,
    SELECTING, UPDATING, UPDATING_BY_EACH_RULE, WITH_ONE_RECORD,
};
use rung_cases::{
    Case, Expected, Outcome, Request, Server, blank_place, place_numbers, play, records,
    standing_of,
};
use rung_requests::predicates::ALL;
use sessions::Session;
use std::test::Fail;
use stores::{Plan, Row, Store};

impl From<Fault> for Expected {
    fn from(fault: Fault) -> Expected {
        match fault {
            Fault::Label(unlawful) => unlawful.into(),
            Fault::Request(refusal) => refusal.into(),
            Fault::Places(short) => short.into(),
        }
    }
}

// What a blank place holds, in numbers.
const BLANK: (u32, (u8, i32), (u8, i32)) = (99, (0, -1), (0, -1));

impl Server for Host<'_> {
    fn answer(&mut self, request: Request) -> Outcome {
        let answer = self.serve(request).into();
        (answer, standing_of(self.sessions, request.0))
    }
}

// On a new store, once so many keys of its first table are given and taken back.
fn plays_on<const N: usize>(
    plan: Plan<N>,
    rows: &mut [Row; N],
    spent: usize,
    cases: &[Case],
) -> Result<(), Fail> {
    let records = records();
    let mut sessions = [Session::closed(), Session::closed(), Session::closed()];
    let mut places = [blank_place(); 4];
    let mut host = Host {
        sessions: &mut sessions,
        records: &records,
        store: Packed::new(plan, rows),
        places: &mut places,
    };
    for _ in 0..spent {
        let _ = host.store.add(0, 0, 0);
        let _ = host.store.remove(0, 0);
    }
    play(cases, &mut host)?;
    Ok(())
}

fn plays(cases: &[Case]) -> Result<(), Fail> {
    let mut rows = [Row {
        key: 7,
        first: -7,
        second: 77,
    }; 7];
    plays_on(Plan::of(&[2, 1, 1, 0, 3])?, &mut rows, 0, cases)
}

#[test]
fn opening_raising_and_lowering() -> Result<(), Fail> {
    plays(OPENING_RAISING_LOWERING)
}

#[test]
fn sealing_and_unsealing() -> Result<(), Fail> {
    plays(SEALING_UNSEALING)
}

#[test]
fn selecting() -> Result<(), Fail> {
    plays(SELECTING)
}

#[test]
fn inserting() -> Result<(), Fail> {
    plays(INSERTING)
}

#[test]
fn deleting() -> Result<(), Fail> {
    plays(DELETING)
}

#[test]
fn updating() -> Result<(), Fail> {
    plays(UPDATING)?;
    plays(UPDATING_BY_EACH_RULE)
}

#[test]
fn reopening() -> Result<(), Fail> {
    plays(REOPENING)
}

#[test]
fn keys_spent() -> Result<(), Fail> {
    plays_on(
        Plan::of(&[1])?,
        &mut [Row::default(); 1],
        999_999,
        KEYS_SPENT,
    )
}

#[test]
fn later_places_are_untouched(rt: HostRuntime) -> Result<(), Fail> {
    let records = records();
    let mut rows = [Row::default(); 2];
    let mut store = Packed::new(Plan::of(&[2])?, &mut rows);
    let _ = store.add(0, 4, -250);
    let mut sessions = [Session::closed()];
    sessions::open(&mut sessions, 0, Rung::new(0)?, Rung::new(7)?)?;
    let mut places = [blank_place(); 2];
    let answer = tables::select(&mut sessions, &records, &store, 0, 0, ALL, &mut places);
    assert_eq!(rt; answer, Ok(1));
    assert_eq!(rt;
        places.map(|place| place_numbers(place)),
        [(1, (1, 4), (4, -250)), BLANK]
    );
    Ok(())
}

#[test]
fn a_table_without_a_record_is_missing(rt: HostRuntime) -> Result<(), Fail> {
    let records = records();
    let mut rows = [Row::default(); 2];
    let mut sessions = [Session::closed()];
    let mut places = [blank_place(); 1];
    let mut host = Host {
        sessions: &mut sessions,
        records: &records[0..1],
        store: Packed::new(Plan::of(&[1, 1])?, &mut rows),
        places: &mut places,
    };
    play(WITH_ONE_RECORD, &mut host)?;
    assert_eq!(rt; places.map(|place| place_numbers(place)), [BLANK]);
    Ok(())
}
