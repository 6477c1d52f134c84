// Updating rows.
ghost use Rattle.std.specs.Prelude.{◌≡◌};
ghost use Rattle.stores.specs.Changes.{changed};
ghost use Rattle.tables.specs.Outcomes.{wrote, written, writing_on};
ghost use Rattle.tables.specs.Steps.{updating_at, updating};

use crate::queries::Predicate;
use crate::records::{Entry, TableRecord, enter};
use crate::scans::{query_label, rewrite_matching};
use labels::Label;
use sessions::{Refusal, Sealed, Session};
use stores::Store;

// The end of an update, once the label is raised.
fn update_at<L: Label, S: Store>(
    before: L,
    entry: Entry<L>,
    store: &mut S,
    table: usize,
    predicate: Predicate,
    first: Sealed<L>,
    second: Sealed<L>,
) -> Result<usize, Refusal<L>>
    ensures { changed result (S.Store.tables store.new) ≡ updating_at L.Label.kind before entry.label entry.«record» (S.Store.tables store.old) table predicate first second }
{
    let Entry { label, record } = entry;
    let query = query_label(store, table, record.second, predicate.second);
    if !query.flows_to(record.first) {
        return Err(Refusal::QueryAboveTarget(label));
    }
    let origin = before.join(second.label()).join(query);
    if !origin.flows_to(record.second.label_of(first.host_value())) {
        return Err(Refusal::SecondAboveField(label));
    }
    Ok(rewrite_matching(
        store,
        table,
        predicate,
        first.host_value(),
        second.host_value(),
    ))
}

fn update_on<L: Label, S: Store>(
    session: &mut Session<L>,
    records: &[TableRecord<L>],
    store: &mut S,
    table: usize,
    predicate: Predicate,
    first: Sealed<L>,
    second: Sealed<L>,
) -> Result<usize, Refusal<L>>
    ensures { wrote result session.new (S.Store.tables store.new) ≡ updating L.Label.kind records.now (S.Store.tables store.old) table predicate first second session.old }
{
    let Entry {
        label: before,
        record,
    } = enter(session, records, store, table)?;
    if !before.flows_to(record.first) {
        return Err(Refusal::LabelAboveTarget(before));
    }
    if !first.label().flows_to(record.first) {
        return Err(Refusal::FirstAboveField(before));
    }
    session.raise(record.table)?;
    let label = before.join(record.table);
    let entry = Entry { label, record };
    update_at(before, entry, store, table, predicate, first, second)
}

// Every matching row of a table gets both sealed values and keeps its key; the number of those rows is answered.
pub fn update<L: Label, S: Store>(
    sessions: &mut [Session<L>],
    records: &[TableRecord<L>],
    store: &mut S,
    session: usize,
    table: usize,
    predicate: Predicate,
    first: Sealed<L>,
    second: Sealed<L>,
) -> Result<usize, Refusal<L>>
    ensures { written result sessions.new (S.Store.tables store.new) ≡ writing_on sessions.old (S.Store.tables store.old) session (updating L.Label.kind records.now (S.Store.tables store.old) table predicate first second) }
{
    if session >= sessions.len() {
        return Err(Refusal::NoSession);
    }
    update_on(
        &mut sessions[session],
        records,
        store,
        table,
        predicate,
        first,
        second,
    )
}
