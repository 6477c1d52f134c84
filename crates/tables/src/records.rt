// Table records, and the tests that every request on a table makes.
ghost use Rattle.std.specs.Prelude.{◌≡◌, Ok, Err};
ghost use Rattle.tables.specs.Records.{entry, second_label, record_of, on_table};

use labels::Label;
use sessions::{Refusal, Session};
use stores::Store;

// How the label of a second field is worked out: a fixed label, the own label of the first field, or the meet or the join of
// a label with that own label.
#[derive(Clone, Copy, PartialEq, Eq, Debug)]
pub enum SecondRule<L> {
    Fixed(L),
    Own,
    Meet(L),
    Join(L),
}

// The labels of a table: of its row count and keys, of its first fields, and the rule for its second fields.
#[derive(Clone, Copy, PartialEq, Eq, Debug)]
pub struct TableRecord<L> {
    pub table: L,
    pub first: L,
    pub second: SecondRule<L>,
}

// A session's label, and the record of the table that it asks for.
#[derive(Clone, Copy, PartialEq, Eq, Debug)]
pub struct Entry<L> {
    pub label: L,
    pub record: TableRecord<L>,
}

impl<L: Label> SecondRule<L> {
    // The label of the second field of a row, by its first field.
    pub fn label_of(self, first: i32) -> L
        ensures { result ≡ second_label L.Label.kind self first }
    {
        match self {
            SecondRule::Fixed(label) => label,
            SecondRule::Own => L::own_label(first),
            SecondRule::Meet(label) => label.meet(L::own_label(first)),
            SecondRule::Join(label) => label.join(L::own_label(first)),
        }
    }
}

fn record_of<L: Label, S: Store>(
    records: &[TableRecord<L>],
    store: &S,
    table: usize,
) -> Option<TableRecord<L>>
    ensures { result ≡ record_of records.now (S.Store.tables store.now) table }
{
    if table >= store.table_count() {
        return None;
    }
    records.get(table).copied()
}

pub fn enter<L: Label, S: Store>(
    session: &Session<L>,
    records: &[TableRecord<L>],
    store: &S,
    table: usize,
) -> Result<Entry<L>, Refusal<L>>
    ensures { result ≡ on_table L.Label.kind session.now records.now (S.Store.tables store.now) table Err (λ c d t. Ok (entry c t)) }
{
    let Some(standing) = session.standing() else {
        return Err(Refusal::SessionClosed);
    };
    let label = standing.label();
    let Some(record) = record_of(records, store, table) else {
        return Err(Refusal::NoTable(label));
    };
    if !record.first.flows_to(record.table) {
        return Err(Refusal::FirstAboveTable(label));
    }
    Ok(Entry { label, record })
}
