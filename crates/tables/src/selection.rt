// Selecting rows.
ghost use Rattle.std.specs.Prelude.{◌≡◌, length};
ghost use Rattle.sessions.specs.Steps.{outcome};
ghost use Rattle.tables.specs.Outcomes.{selected, filled_with, read, reading_on};
ghost use Rattle.tables.specs.Steps.{looking, selecting};

use crate::fills::fill;
use crate::queries::{Place, Predicate};
use crate::records::{Entry, TableRecord, enter};
use crate::scans::{count_matching, query_label};
use labels::Label;
use sessions::{Refusal, Session};
use stores::Store;

// The label is raised by the table's and then by the query's.
fn look_on<L: Label, S: Store>(
    session: &mut Session<L>,
    records: &[TableRecord<L>],
    store: &S,
    table: usize,
    predicate: Predicate,
) -> Result<Entry<L>, Refusal<L>>
    ensures { outcome result session.new ≡ looking L.Label.kind records.now (S.Store.tables store.now) table predicate session.old }
{
    let Entry { label, record } = enter(session, records, store, table)?;
    session.raise(record.table)?;
    let label = label.join(record.table);
    let query = query_label(store, table, record.second, predicate.second);
    session
        .raise(query)
        .map_err(|_| Refusal::QueryAboveClearance(label))?;
    Ok(Entry {
        label: label.join(query),
        record,
    })
}

fn select_on<L: Label, S: Store>(
    session: &mut Session<L>,
    records: &[TableRecord<L>],
    store: &S,
    table: usize,
    predicate: Predicate,
    places: &mut [Place<L>],
) -> Result<usize, Refusal<L>>
    ensures { selected result session.new places.new ≡ filled_with places.old (selecting L.Label.kind records.now (S.Store.tables store.now) table predicate (length places.old) session.old) }
{
    let Entry { label, record } = look_on(session, records, store, table, predicate)?;
    let count = count_matching(store, table, predicate);
    if count > places.len() {
        return Err(Refusal::TooFewPlaces(label));
    }
    fill(store, table, record, predicate, places);
    Ok(count)
}

// The matching rows of a table, in store order, fill the first places; their number is answered.
pub fn select<L: Label, S: Store>(
    sessions: &mut [Session<L>],
    records: &[TableRecord<L>],
    store: &S,
    session: usize,
    table: usize,
    predicate: Predicate,
    places: &mut [Place<L>],
) -> Result<usize, Refusal<L>>
    ensures { read result sessions.new places.new ≡ reading_on sessions.old places.old session (selecting L.Label.kind records.now (S.Store.tables store.now) table predicate (length places.old)) }
{
    if session >= sessions.len() {
        return Err(Refusal::NoSession);
    }
    select_on(
        &mut sessions[session],
        records,
        store,
        table,
        predicate,
        places,
    )
}
