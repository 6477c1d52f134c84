// The cases of `rung_cases`, served by the monitor one by one, and lists of requests.
use labels::Rung;
use monitor::{Answer, Event, Monitor, ShortBuffer};
use packed::Packed;
use rung_cases::Ask::{Insert, Open, Select};
use rung_cases::cases::{
    DELETING, INSERTING, KEYS_SPENT, OPENING_RAISING_LOWERING, REOPENING, SEALING_UNSEALING,
    SELECTING, UPDATED_AND_READ, UPDATING, UPDATING_BY_EACH_RULE, WITH_ONE_RECORD,
};
use rung_cases::{
    Case, Expected, Mismatch, Outcome, Request, Server, blank_place, numbers, place_numbers, play,
    records, standing_of,
};
use rung_requests::predicates::ALL;
use sessions::Session;
use std::process::Abort;
use std::test::Fail;
use stores::{Plan, Row, Store};
use tables::Place;

// What a blank place holds, in numbers.
const BLANK: (u32, (u8, i32), (u8, i32)) = (99, (0, -1), (0, -1));

fn outcome(
    monitor: &mut Monitor<Rung, Packed>,
    places: &mut [Place<Rung>],
    request: Request,
) -> Outcome {
    let answer = match monitor::Request::try_from(request) {
        Ok(asked) => monitor.serve(asked, places).into(),
        Err(unlawful) => unlawful.into(),
    };
    (answer, standing_of(monitor.sessions, request.0))
}

// A monitor with the places that are lent for each request.
#[derive(Drop)]
struct Host<'a, 'b, 'c> {
    monitor: &'a mut Monitor<'b, Rung, Packed<'c>>,
    places: &'a mut [Place<Rung>],
}

impl Server for Host<'_, '_, '_> {
    fn answer(&mut self, request: Request) -> Outcome {
        outcome(self.monitor, self.places, request)
    }
}

fn plays_each(
    monitor: &mut Monitor<Rung, Packed>,
    places: &mut [Place<Rung>],
    cases: &[Case],
) -> Result<(), Mismatch> {
    play(cases, &mut Host { monitor, places })
}

fn plays_on(store: &mut Packed, cases: &[Case]) -> Result<(), Fail> {
    let mut sessions = [Session::closed(), Session::closed(), Session::closed()];
    let mut monitor = Monitor {
        sessions: &mut sessions,
        records: &records(),
        store,
    };
    plays_each(&mut monitor, &mut [blank_place(); 4], cases)?;
    Ok(())
}

fn plays(cases: &[Case]) -> Result<(), Fail> {
    let mut rows = [Row {
        key: 7,
        first: -7,
        second: 77,
    }; 7];
    let mut store = Packed::new(Plan::of(&[2, 1, 1, 0, 3])?, &mut rows);
    plays_on(&mut store, cases)
}

fn blank_event() -> Event<Rung> {
    Event {
        before: None,
        answer: Ok(Answer::Value(99)),
        after: None,
    }
}

#[test]
fn opening_raising_and_lowering() -> Result<(), Fail> {
    plays(OPENING_RAISING_LOWERING)
}

#[test]
fn sealing_and_unsealing() -> Result<(), Fail> {
    plays(SEALING_UNSEALING)
}

#[test]
fn selecting() -> Result<(), Fail> {
    plays(SELECTING)
}

#[test]
fn inserting() -> Result<(), Fail> {
    plays(INSERTING)
}

#[test]
fn deleting() -> Result<(), Fail> {
    plays(DELETING)
}

#[test]
fn updating() -> Result<(), Fail> {
    plays(UPDATING)?;
    plays(UPDATING_BY_EACH_RULE)
}

#[test]
fn reopening() -> Result<(), Fail> {
    plays(REOPENING)
}

#[test]
fn updated_rows_keep_their_keys(rt: HostRuntime) -> Result<(), Fail> {
    let mut rows = [Row::default(); 3];
    let mut store = Packed::new(Plan::of(&[3])?, &mut rows);
    let mut places = [blank_place(); 4];
    let mut monitor = Monitor {
        sessions: &mut [Session::closed()],
        records: &records(),
        store: &mut store,
    };
    plays_each(&mut monitor, &mut places, UPDATED_AND_READ)?;
    assert_eq!(rt;
        places.map(|place| place_numbers(place)),
        [
            (1, (1, 4), (4, -250)),
            (2, (1, 5), (5, -77)),
            (3, (1, 5), (5, -77)),
            BLANK,
        ]
    );
    Ok(())
}

#[test]
fn keys_spent() -> Result<(), Fail> {
    let mut rows = [Row::default(); 1];
    let mut store = Packed::new(Plan::of(&[1])?, &mut rows);
    for _ in 0..999_999 {
        let _ = store.add(0, 0, 0);
        let _ = store.remove(0, 0);
    }
    plays_on(&mut store, KEYS_SPENT)
}

#[test]
fn later_places_are_untouched(rt: HostRuntime) -> Result<(), Fail> {
    let mut rows = [Row::default(); 2];
    let mut store = Packed::new(Plan::of(&[2])?, &mut rows);
    let _ = store.add(0, 4, -250);
    let mut places = [blank_place(); 2];
    let mut monitor = Monitor {
        sessions: &mut [Session::closed()],
        records: &records(),
        store: &mut store,
    };
    plays_each(
        &mut monitor,
        &mut places,
        &[
            (Request(0, Open(0, 7)), Expected::Done, Some((0, 7))),
            (
                Request(0, Select(0, ALL, 2)),
                Expected::Rows(1),
                Some((2, 7)),
            ),
        ],
    )?;
    assert_eq!(rt;
        places.map(|place| place_numbers(place)),
        [(1, (1, 4), (4, -250)), BLANK]
    );
    Ok(())
}

#[test]
fn a_table_without_a_record_is_missing(rt: HostRuntime) -> Result<(), Fail> {
    let mut rows = [Row::default(); 2];
    let mut store = Packed::new(Plan::of(&[1, 1])?, &mut rows);
    let mut places = [blank_place(); 1];
    let mut monitor = Monitor {
        sessions: &mut [Session::closed()],
        records: &records()[0..1],
        store: &mut store,
    };
    plays_each(&mut monitor, &mut places, WITH_ONE_RECORD)?;
    assert_eq!(rt; places.map(|place| place_numbers(place)), [BLANK]);
    Ok(())
}

// A list of four requests, which asks for 2 and for 3 places, on a table with one row; with what is said of it, and how many
// rows there are after it.
fn listing(
    sessions: &mut [Session<Rung>],
    events: &mut [Event<Rung>],
    places: &mut [Place<Rung>],
) -> Result<(Result<(), ShortBuffer>, Option<usize>), Fail> {
    let mut rows = [Row::default(); 2];
    let mut store = Packed::new(Plan::of(&[2])?, &mut rows);
    let _ = store.add(0, 4, -250);
    let requests = [
        Request(0, Open(0, 7)).try_into()?,
        Request(0, Select(0, ALL, 2)).try_into()?,
        Request(0, Insert(0, (0, 2), (0, 9))).try_into()?,
        Request(0, Select(0, ALL, 3)).try_into()?,
    ];
    let mut monitor = Monitor {
        sessions,
        records: &records(),
        store: &mut store,
    };
    let answer = monitor.serve_all(&requests, events, places);
    Ok((answer, store.row_count(0)))
}

// The list is not served at all where so many events and places are lent.
fn refuses(
    rt: &impl Abort,
    events: &mut [Event<Rung>],
    places: &mut [Place<Rung>],
    expected: ShortBuffer,
) -> Result<(), Fail> {
    let mut sessions = [Session::closed()];
    let answer = listing(&mut sessions, events, places)?;
    assert_eq!(rt; answer, (Err(expected), Some(1)));
    assert_eq!(rt; sessions, [Session::closed()]);
    for event in &*events {
        assert_eq!(rt; (event.before, event.after), (None, None));
        assert_eq!(rt; Expected::from(event.answer), Expected::Value(99));
    }
    assert!(rt; places.iter().all(|place| place_numbers(*place) == BLANK));
    Ok(())
}

#[test]
fn lists_with_too_little_room(rt: HostRuntime) -> Result<(), Fail> {
    let event = blank_event();
    let place = blank_place();
    refuses(&rt, &mut [event; 3], &mut [place; 5], ShortBuffer::Events)?;
    refuses(&rt, &mut [event; 3], &mut [place; 1], ShortBuffer::Events)?;
    refuses(
        &rt,
        &mut [event; 4],
        &mut [place; 4],
        ShortBuffer::Places(3),
    )?;
    refuses(
        &rt,
        &mut [event; 4],
        &mut [place; 1],
        ShortBuffer::Places(1),
    )
}

#[test]
fn a_list_with_just_enough_room(rt: HostRuntime) -> Result<(), Fail> {
    let mut sessions = [Session::closed()];
    let mut events = [blank_event(); 4];
    let mut places = [blank_place(); 5];
    let answer = listing(&mut sessions, &mut events, &mut places)?;
    assert_eq!(rt; answer, (Ok(()), Some(2)));
    assert_eq!(rt;
        events.map(|event| Expected::from(event.answer)),
        [
            Expected::Done,
            Expected::Rows(1),
            Expected::Key(2),
            Expected::Rows(2),
        ]
    );
    assert_eq!(rt; events[0].before, None);
    assert_eq!(rt; events[1].before.map(|at| numbers(at)), Some((0, 7)));
    assert_eq!(rt; events[1].after.map(|at| numbers(at)), Some((2, 7)));
    assert_eq!(rt;
        places.map(|place| place_numbers(place)),
        [
            (1, (1, 4), (4, -250)),
            BLANK,
            (1, (1, 4), (4, -250)),
            (2, (1, 2), (2, 9)),
            BLANK,
        ]
    );
    Ok(())
}
