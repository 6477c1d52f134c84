// Two histories of requests that differ only in what lies above the observer's label.
ghost use Rattle.std.specs.Prelude.{◌≡◌, Ok};
ghost use Rattle.monitor.specs.Steps.{state};
ghost use Rattle.monitor.specs.Lists.{listed};
ghost use Rattle.two_histories.specs.Histories.{observer_label, table_records, start, left_history, right_history, playing, HistoriesLookSame};

use guarantees::{Side, serve_both};
use labels::Rung;
use monitor::{Event, Request, ShortBuffer};
use rung_requests::predicates::{ALL, KEY_1, KEY_2, LOW_SECONDS};
use rung_requests::{delete, insert, open, rung, sealed, select, table_record, unseal, update};
use sessions::Session;
use stores::Store;
use tables::{Place, Predicate, Range, SecondRule, TableRecord};

const FIRST_4: Predicate = Predicate {
    first: Some(Range { low: 4, high: 4 }),
    ..ALL
};

pub fn observer() -> Rung
    ensures { result ≡ observer_label }
{
    rung(3)
}

pub fn records() -> [TableRecord<Rung>; 2]
    ensures { result ≡ table_records }
{
    let wells = table_record(2, 1, SecondRule::Own);
    let assays = table_record(5, 4, SecondRule::Fixed(rung(6)));
    [wells, assays]
}

// Session 2, above the observer, fills table 1.
pub fn left_requests() -> [Request<Rung>; 17]
    ensures { result ≡ left_history }
{
    [
        open(0, 0, 3),
        open(1, 0, 7),
        open(2, 5, 7),
        insert(1, 0, sealed(1, 4), sealed(4, -250)),
        insert(2, 1, sealed(4, 60), sealed(6, 900)),
        insert(1, 0, sealed(0, 2), sealed(2, 35)),
        insert(2, 1, sealed(4, 61), sealed(5, -12)),
        update(0, 0, KEY_2, sealed(0, 6), sealed(5, -90)),
        insert(1, 0, sealed(1, 3), sealed(3, 12)),
        insert(1, 0, sealed(1, 5), sealed(4, 8)),
        select(0, 0, ALL, 3),
        select(1, 0, LOW_SECONDS, 3),
        unseal(1, sealed(6, 900)),
        open(1, 0, 7),
        delete(1, 0, FIRST_4),
        insert(1, 1, sealed(0, 7), sealed(2, 1)),
        unseal(0, sealed(4, -250)),
    ]
}

// Session 2 leaves room in table 1, and other values are sealed above the observer.
pub fn right_requests() -> [Request<Rung>; 16]
    ensures { result ≡ right_history }
{
    [
        open(0, 0, 3),
        open(1, 0, 7),
        open(2, 5, 7),
        insert(2, 1, sealed(4, 17), sealed(6, 5)),
        insert(1, 0, sealed(1, 4), sealed(4, -310)),
        insert(1, 0, sealed(0, 2), sealed(2, 35)),
        update(0, 0, KEY_2, sealed(0, 6), sealed(5, 12)),
        insert(1, 0, sealed(1, 3), sealed(3, 12)),
        delete(2, 0, KEY_1),
        insert(1, 0, sealed(1, 5), sealed(4, 9)),
        select(0, 0, ALL, 3),
        select(1, 0, LOW_SECONDS, 3),
        open(1, 0, 7),
        delete(1, 0, FIRST_4),
        insert(1, 1, sealed(0, 7), sealed(2, 1)),
        unseal(0, sealed(4, -310)),
    ]
}

// Both histories are played from the start. Events and places suffice, and the observer sees the same of both. They are lent as
// arrays and not as sides, since the length of an array says that they suffice.
pub fn play_both<S: Store, T: Store>(
    left: &mut [Session<Rung>],
    left_store: &mut S,
    left_events: &mut [Event<Rung>; 17],
    left_places: &mut [Place<Rung>; 6],
    right: &mut [Session<Rung>],
    right_store: &mut T,
    right_events: &mut [Event<Rung>; 16],
    right_places: &mut [Place<Rung>; 6],
) -> (Result<(), ShortBuffer>, Result<(), ShortBuffer>)
    requires left { state left.old (S.Store.tables left_store.old) ≡ start }
    requires right { state right.old (T.Store.tables right_store.old) ≡ start }
    ensures left { listed result.0 (state left.new (S.Store.tables left_store.new)) left_events.new left_places.new ≡ playing left_history left_events.old left_places.old }
    ensures right { listed result.1 (state right.new (T.Store.tables right_store.new)) right_events.new right_places.new ≡ playing right_history right_events.old right_places.old }
    ensures served { result ≡ (Ok tt, Ok tt) }
    ensures look_same { HistoriesLookSame (state left.new (S.Store.tables left_store.new)) (state right.new (T.Store.tables right_store.new)) }
{
    let left_history = left_requests();
    let right_history = right_requests();
    let mut left = Side {
        sessions: left,
        store: left_store,
        requests: &left_history,
        events: left_events,
        places: left_places,
    };
    let mut right = Side {
        sessions: right,
        store: right_store,
        requests: &right_history,
        events: right_events,
        places: right_places,
    };
    serve_both(&records(), &mut left, &mut right)
}
