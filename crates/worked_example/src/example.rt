// The worked example, played on a new store.
ghost use Rattle.std.specs.Prelude.{◌≡◌, Ok, slice_set};
ghost use Rattle.worked_example.specs.Example.{worked, row_with, seen_at_3, seen_always};

use labels::Rung;
use monitor::{Event, Monitor};
use packed::Packed;
use rung_requests::example::{records, requests};
use sessions::Session;
use stores::{Plan, Row};
use tables::Place;

// Serves the requests on two closed sessions and a store without a row.
pub fn play(
    value: i32,
    events: &mut [Event<Rung>; 15],
    places: &mut [Place<Rung>; 8],
) -> anyhow::Result<()>
    ensures succeeds { result ≡ Ok tt }
    ensures answers { events.new ≡ worked }
    ensures row { places.new ≡ slice_set places.old 4 (row_with value) }
    ensures seen { seen_at_3 value ≡ seen_always }
{
    let mut rows = [Row::default(); 3];
    let mut store = Packed::new(Plan::of(&[2, 1])?, &mut rows);
    let mut sessions = [Session::closed(), Session::closed()];
    let records = records();
    let mut monitor = Monitor {
        sessions: &mut sessions,
        records: &records,
        store: &mut store,
    };
    monitor.serve_all(&requests(value), events, places)?;
    Ok(())
}
