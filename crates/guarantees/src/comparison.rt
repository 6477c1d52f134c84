// Two monitors served side by side, and what is promised of them.
ghost use Rattle.std.specs.Prelude.{◌≡◌, Ok};
ghost use Rattle.monitor.specs.Steps.{state};
ghost use Rattle.monitor.specs.Lists.{listed, serving_all};
ghost use Rattle.guarantees.specs.Sides.{monitor_of, SameLoans};
ghost use Rattle.guarantees.specs.Compare.{NobodyLearnsHere, NobodyLearnsAbove};
ghost use Rattle.guarantees.specs.Course.{LabelsRiseHere, LabelsOnlyRise};

use labels::Label;
use monitor::{Event, Monitor, Request, ShortBuffer};
use sessions::Session;
use stores::Store;
use tables::{Place, TableRecord};

// A monitor, a list of requests to it, and the events and places lent for what they return.
#[derive(Drop)]
pub struct Side<'a, L, S> {
    pub sessions: &'a mut [Session<L>],
    pub store: &'a mut S,
    pub requests: &'a [Request<L>],
    pub events: &'a mut [Event<L>],
    pub places: &'a mut [Place<L>],
}

impl<'a, L: Label, S: Store> Side<'a, L, S> {
    // The side's own list is handed in, so that which list is served shows at the call.
    fn serve(
        &mut self,
        records: &[TableRecord<L>],
        requests: &[Request<L>],
    ) -> Result<(), ShortBuffer>
        ensures loans { SameLoans self.old self.new }
        ensures served { listed result (monitor_of S.Store.tables self.new) self.new.events.now self.new.places.now ≡ serving_all L.Label.kind records.now (monitor_of S.Store.tables self.old) requests.now self.old.events.now self.old.places.now }
    {
        let mut monitor = Monitor {
            sessions: &mut *self.sessions,
            records,
            store: &mut *self.store,
        };
        monitor.serve_all(requests, self.events, self.places)
    }
}

// Serves a list of requests on each of two monitors with the same table records. What each list returns and leaves is what
// `Monitor::serve_all` says; and, if the monitors are new and alike, nobody learns from either what lies above his label.
pub fn serve_both<L: Label, S: Store, T: Store>(
    records: &[TableRecord<L>],
    left: &mut Side<L, S>,
    right: &mut Side<L, T>,
) -> (Result<(), ShortBuffer>, Result<(), ShortBuffer>)
    ensures left { listed result.0 (monitor_of S.Store.tables left.new) left.new.events.now left.new.places.now ≡ serving_all L.Label.kind records.now (monitor_of S.Store.tables left.old) left.old.requests.now left.old.events.now left.old.places.now }
    ensures right { listed result.1 (monitor_of T.Store.tables right.new) right.new.events.now right.new.places.now ≡ serving_all L.Label.kind records.now (monitor_of T.Store.tables right.old) right.old.requests.now right.old.events.now right.old.places.now }
    ensures nobody_learns_here { result.0 ≡ Ok tt → result.1 ≡ Ok tt → NobodyLearnsHere L.Label.kind records.now (monitor_of S.Store.tables left.old) left.old.requests.now (monitor_of S.Store.tables left.new) (monitor_of T.Store.tables right.old) right.old.requests.now (monitor_of T.Store.tables right.new) }
    ensures labels_rise_left { result.0 ≡ Ok tt → LabelsRiseHere L.Label.kind records.now (monitor_of S.Store.tables left.old) left.old.requests.now (monitor_of S.Store.tables left.new) }
    ensures labels_rise_right { result.1 ≡ Ok tt → LabelsRiseHere L.Label.kind records.now (monitor_of T.Store.tables right.old) right.old.requests.now (monitor_of T.Store.tables right.new) }
    ensures nobody_learns_above { NobodyLearnsAbove L.Label.kind }
    ensures labels_only_rise { LabelsOnlyRise L.Label.kind }
    ensures loans_left { SameLoans left.old left.new }
    ensures loans_right { SameLoans right.old right.new }
{
    let served_left = left.serve(records, left.requests);
    let served_right = right.serve(records, right.requests);
    (served_left, served_right)
}

// A list served on a monitor whose parts are lent one by one.
fn serve_list<L: Label, S: Store>(
    sessions: &mut [Session<L>],
    records: &[TableRecord<L>],
    store: &mut S,
    requests: &[Request<L>],
    events: &mut [Event<L>],
    places: &mut [Place<L>],
) -> Result<(), ShortBuffer>
    ensures { listed result (state sessions.new (S.Store.tables store.new)) events.new places.new ≡ serving_all L.Label.kind records.now (state sessions.old (S.Store.tables store.old)) requests.now events.old places.old }
{
    let mut monitor = Monitor {
        sessions,
        records,
        store,
    };
    monitor.serve_all(requests, events, places)
}

// The same of two monitors whose parts are lent one by one. Sides of one type, made of parts that are lent for different times,
// cannot be lent to one call; their parts can.
pub fn serve_two<L: Label, S: Store, T: Store>(
    records: &[TableRecord<L>],
    left: &mut [Session<L>],
    left_store: &mut S,
    left_requests: &[Request<L>],
    left_events: &mut [Event<L>],
    left_places: &mut [Place<L>],
    right: &mut [Session<L>],
    right_store: &mut T,
    right_requests: &[Request<L>],
    right_events: &mut [Event<L>],
    right_places: &mut [Place<L>],
) -> (Result<(), ShortBuffer>, Result<(), ShortBuffer>)
    ensures left { listed result.0 (state left.new (S.Store.tables left_store.new)) left_events.new left_places.new ≡ serving_all L.Label.kind records.now (state left.old (S.Store.tables left_store.old)) left_requests.now left_events.old left_places.old }
    ensures right { listed result.1 (state right.new (T.Store.tables right_store.new)) right_events.new right_places.new ≡ serving_all L.Label.kind records.now (state right.old (T.Store.tables right_store.old)) right_requests.now right_events.old right_places.old }
    ensures nobody_learns_here { result.0 ≡ Ok tt → result.1 ≡ Ok tt → NobodyLearnsHere L.Label.kind records.now (state left.old (S.Store.tables left_store.old)) left_requests.now (state left.new (S.Store.tables left_store.new)) (state right.old (T.Store.tables right_store.old)) right_requests.now (state right.new (T.Store.tables right_store.new)) }
    ensures labels_rise_left { result.0 ≡ Ok tt → LabelsRiseHere L.Label.kind records.now (state left.old (S.Store.tables left_store.old)) left_requests.now (state left.new (S.Store.tables left_store.new)) }
    ensures labels_rise_right { result.1 ≡ Ok tt → LabelsRiseHere L.Label.kind records.now (state right.old (T.Store.tables right_store.old)) right_requests.now (state right.new (T.Store.tables right_store.new)) }
    ensures nobody_learns_above { NobodyLearnsAbove L.Label.kind }
    ensures labels_only_rise { LabelsOnlyRise L.Label.kind }
{
    let served_left = serve_list(
        left,
        records,
        left_store,
        left_requests,
        left_events,
        left_places,
    );
    let served_right = serve_list(
        right,
        records,
        right_store,
        right_requests,
        right_events,
        right_places,
    );
    (served_left, served_right)
}
