// Inserting a row.
ghost use Rattle.std.specs.Prelude.{◌≡◌};
ghost use Rattle.stores.specs.Changes.{changed};
ghost use Rattle.tables.specs.Outcomes.{refusal_under, wrote, written, writing_on};
ghost use Rattle.tables.specs.Steps.{inserting_at, inserting};

use crate::records::{Entry, TableRecord, enter};
use labels::Label;
use sessions::{Refusal, Sealed, Session};
use stores::{AddRefusal, Store};

// A refusal of the store, with the session's label.
fn labelled<L: Label>(label: L, refusal: AddRefusal) -> Refusal<L>
    ensures { result ≡ refusal_under label refusal }
{
    match refusal {
        AddRefusal::NoTable => Refusal::NoTable(label),
        AddRefusal::TableFull => Refusal::TableFull(label),
        AddRefusal::KeysSpent => Refusal::KeysSpent(label),
    }
}

// The end of an insertion, once the label is raised.
fn insert_at<L: Label, S: Store>(
    entry: Entry<L>,
    store: &mut S,
    table: usize,
    first: Sealed<L>,
    second: Sealed<L>,
) -> Result<u32, Refusal<L>>
    ensures { changed result (S.Store.tables store.new) ≡ inserting_at L.Label.kind entry.label entry.«record» (S.Store.tables store.old) table first second }
{
    let Entry { label, record } = entry;
    if !second
        .label()
        .flows_to(record.second.label_of(first.host_value()))
    {
        return Err(Refusal::SecondAboveField(label));
    }
    store
        .add(table, first.host_value(), second.host_value())
        .map_err(|refusal| labelled(label, refusal))
}

fn insert_on<L: Label, S: Store>(
    session: &mut Session<L>,
    records: &[TableRecord<L>],
    store: &mut S,
    table: usize,
    first: Sealed<L>,
    second: Sealed<L>,
) -> Result<u32, Refusal<L>>
    ensures { wrote result session.new (S.Store.tables store.new) ≡ inserting L.Label.kind records.now (S.Store.tables store.old) table first second session.old }
{
    let Entry { label, record } = enter(session, records, store, table)?;
    if !label.flows_to(record.table) {
        return Err(Refusal::LabelAboveTarget(label));
    }
    if !first.label().flows_to(record.first) {
        return Err(Refusal::FirstAboveField(label));
    }
    session.raise(record.table)?;
    let label = label.join(record.table);
    insert_at(Entry { label, record }, store, table, first, second)
}

// A row of two sealed values is added to a table; its key is answered.
pub fn insert<L: Label, S: Store>(
    sessions: &mut [Session<L>],
    records: &[TableRecord<L>],
    store: &mut S,
    session: usize,
    table: usize,
    first: Sealed<L>,
    second: Sealed<L>,
) -> Result<u32, Refusal<L>>
    ensures { written result sessions.new (S.Store.tables store.new) ≡ writing_on sessions.old (S.Store.tables store.old) session (inserting L.Label.kind records.now (S.Store.tables store.old) table first second) }
{
    if session >= sessions.len() {
        return Err(Refusal::NoSession);
    }
    insert_on(&mut sessions[session], records, store, table, first, second)
}
