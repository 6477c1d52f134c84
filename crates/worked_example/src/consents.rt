// A run with consent labels: two companies, the parties 0 and 2, share a table.
use labels::{Consent, Label, UnlawfulLabel};
use monitor::{Ask, Event, Monitor, Request};
use packed::Packed;
use rung_requests::predicates::{ALL, LOW_SECONDS};
use sessions::{Sealed, Session};
use stores::{Plan, Row};
use tables::{Place, SecondRule, TableRecord};

// The consent of one of the parties 0 and 2 suffices.
const EITHER: u64 = 0xFAFA_FAFA_FAFA_FAFA;

// The table's rows and keys are for whoever has the consent of 0 or 2, its first fields for all, and a second field is for the
// party whose number the first field holds.
pub fn record() -> Result<TableRecord<Consent>, UnlawfulLabel> {
    Ok(TableRecord {
        table: Consent::new(EITHER, 0)?,
        first: Consent::lowest(),
        second: SecondRule::Own,
    })
}

fn ask(session: usize, ask: Ask<Consent>) -> Request<Consent> {
    Request { session, ask }
}

// A first field with the number of a party, for all to see.
fn of_party(party: i32) -> Sealed<Consent> {
    Sealed::new(Consent::lowest(), party)
}

// A value of a party, under its own label.
fn own(party: i32, value: i32) -> Sealed<Consent> {
    Sealed::new(Consent::own_label(party), value)
}

// Session 0 is cleared for everything, session 1 for what party 0 may see.
pub fn requests() -> [Request<Consent>; 10] {
    let lowest = Consent::lowest();
    let highest = Consent::own_label(-1);
    [
        ask(0, Ask::Open(lowest, highest)),
        ask(1, Ask::Open(lowest, Consent::own_label(0))),
        ask(0, Ask::Insert(0, of_party(0), own(0, -250))),
        ask(0, Ask::Insert(0, of_party(2), own(2, 77))),
        ask(1, Ask::Select(0, LOW_SECONDS, 2)),
        ask(1, Ask::Select(0, ALL, 2)),
        ask(1, Ask::Unseal(own(0, -250))),
        ask(1, Ask::Unseal(own(2, 77))),
        ask(1, Ask::Delete(0, ALL)),
        ask(0, Ask::Delete(0, LOW_SECONDS)),
    ]
}

// Serves the requests on two closed sessions and a store without a row.
pub fn play(
    events: &mut [Event<Consent>; 10],
    places: &mut [Place<Consent>; 4],
) -> anyhow::Result<()> {
    let mut rows = [Row::default(); 3];
    let mut store = Packed::new(Plan::of(&[3])?, &mut rows);
    let mut sessions = [Session::closed(), Session::closed()];
    let records = [record()?];
    let mut monitor = Monitor {
        sessions: &mut sessions,
        records: &records,
        store: &mut store,
    };
    monitor.serve_all(&requests(), events, places)?;
    Ok(())
}
