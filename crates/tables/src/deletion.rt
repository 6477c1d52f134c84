// Deleting rows.
ghost use Rattle.std.specs.Prelude.{◌≡◌};
ghost use Rattle.stores.specs.Changes.{changed};
ghost use Rattle.tables.specs.Outcomes.{wrote, written, writing_on};
ghost use Rattle.tables.specs.Steps.{deleting_at, deleting};

use crate::queries::Predicate;
use crate::records::{Entry, TableRecord, enter};
use crate::scans::{query_label, remove_matching};
use labels::Label;
use sessions::{Refusal, Session};
use stores::Store;

// The end of a deletion, once the label is raised.
fn delete_at<L: Label, S: Store>(
    entry: Entry<L>,
    store: &mut S,
    table: usize,
    predicate: Predicate,
) -> Result<usize, Refusal<L>>
    ensures { changed result (S.Store.tables store.new) ≡ deleting_at L.Label.kind entry.label entry.«record» (S.Store.tables store.old) table predicate }
{
    let Entry { label, record } = entry;
    let query = query_label(store, table, record.second, predicate.second);
    if !query.flows_to(record.table) {
        return Err(Refusal::QueryAboveTarget(label));
    }
    Ok(remove_matching(store, table, predicate))
}

fn delete_on<L: Label, S: Store>(
    session: &mut Session<L>,
    records: &[TableRecord<L>],
    store: &mut S,
    table: usize,
    predicate: Predicate,
) -> Result<usize, Refusal<L>>
    ensures { wrote result session.new (S.Store.tables store.new) ≡ deleting L.Label.kind records.now (S.Store.tables store.old) table predicate session.old }
{
    let Entry { label, record } = enter(session, records, store, table)?;
    if !label.flows_to(record.table) {
        return Err(Refusal::LabelAboveTarget(label));
    }
    session.raise(record.table)?;
    let label = label.join(record.table);
    delete_at(Entry { label, record }, store, table, predicate)
}

// Every matching row of a table is removed; their number is answered.
pub fn delete<L: Label, S: Store>(
    sessions: &mut [Session<L>],
    records: &[TableRecord<L>],
    store: &mut S,
    session: usize,
    table: usize,
    predicate: Predicate,
) -> Result<usize, Refusal<L>>
    ensures { written result sessions.new (S.Store.tables store.new) ≡ writing_on sessions.old (S.Store.tables store.old) session (deleting L.Label.kind records.now (S.Store.tables store.old) table predicate) }
{
    if session >= sessions.len() {
        return Err(Refusal::NoSession);
    }
    delete_on(&mut sessions[session], records, store, table, predicate)
}
