// One walk over a table for each question that a request asks of its rows, and one pass for each change that it makes to them.
ghost use Rattle.std.specs.Prelude.{◌≡◌, map, length};
ghost use Rattle.stores.specs.Tables.{rows_in};
ghost use Rattle.stores.specs.Changes.{changed, rows_put};
ghost use Rattle.tables.specs.Queries.{matching, others, rewritten, query_label, seconds_label};
ghost use Rattle.tables.specs.Scans.{joined, counted, removal, rewriting};

use crate::queries::{Predicate, Range};
use crate::records::SecondRule;
use labels::Label;
use stores::{Edit, Fate, Row, Store, Visit};

// Joins the labels of second fields.
#[derive(Drop)]
pub struct SecondLabels<L> {
    rule: SecondRule<L>,
    label: L,
}

impl<L: Label> Visit for SecondLabels<L> {
    ghost step = { joined L.Label.kind };

    fn visit(&mut self, row: Row) {
        self.label = self.label.join(self.rule.label_of(row.first));
    }
}

fn seconds_label<L: Label, S: Store>(store: &S, table: usize, rule: SecondRule<L>) -> L
    ensures { result ≡ seconds_label L.Label.kind rule (rows_in (S.Store.tables store.now) table) }
{
    let mut labels = SecondLabels {
        rule,
        label: L::lowest(),
    };
    store.walk(table, &mut labels);
    labels.label
}

// The label of what a query looks at.
pub fn query_label<L: Label, S: Store>(
    store: &S,
    table: usize,
    rule: SecondRule<L>,
    second: Option<Range>,
) -> L
    ensures { result ≡ query_label L.Label.kind rule second (rows_in (S.Store.tables store.now) table) }
{
    match second {
        None => L::lowest(),
        Some(_) => seconds_label(store, table, rule),
    }
}

// Counts matching rows.
#[derive(Drop)]
pub struct Count {
    predicate: Predicate,
    count: usize,
}

impl Visit for Count {
    ghost step = { counted };

    fn visit(&mut self, row: Row) {
        if self.predicate.matches(row) {
            self.count = self.count.saturating_add(1);
        }
    }
}

pub fn count_matching<S: Store>(store: &S, table: usize, predicate: Predicate) -> usize
    ensures { result ≡ length (matching predicate (rows_in (S.Store.tables store.now) table)) }
{
    let mut count = Count {
        predicate,
        count: 0,
    };
    store.walk(table, &mut count);
    count.count
}

// Removes matching rows.
#[derive(Drop)]
pub struct Removal {
    predicate: Predicate,
}

impl Edit for Removal {
    ghost decides = { removal };

    fn decide(&self, row: Row) -> Fate {
        if self.predicate.matches(row) {
            Fate::Remove
        } else {
            Fate::Keep
        }
    }
}

// Every matching row is removed, and their number answered.
pub fn remove_matching<S: Store>(store: &mut S, table: usize, predicate: Predicate) -> usize
    ensures { let rows = rows_in (S.Store.tables store.old) table in changed result (S.Store.tables store.new) ≡ changed (length (matching predicate rows)) (rows_put (S.Store.tables store.old) table (others predicate rows)) }
{
    store.sweep(table, &Removal { predicate })
}

// Gives matching rows two values.
#[derive(Drop)]
pub struct Rewriting {
    predicate: Predicate,
    first: i32,
    second: i32,
}

impl Edit for Rewriting {
    ghost decides = { rewriting };

    fn decide(&self, row: Row) -> Fate {
        if self.predicate.matches(row) {
            Fate::Rewrite(self.first, self.second)
        } else {
            Fate::Keep
        }
    }
}

// Every matching row gets both values and keeps its key, and the number of those rows is answered.
pub fn rewrite_matching<S: Store>(
    store: &mut S,
    table: usize,
    predicate: Predicate,
    first: i32,
    second: i32,
) -> usize
    ensures { let rows = rows_in (S.Store.tables store.old) table in changed result (S.Store.tables store.new) ≡ changed (length (matching predicate rows)) (rows_put (S.Store.tables store.old) table (map (rewritten predicate first second) rows)) }
{
    store.sweep(
        table,
        &Rewriting {
            predicate,
            first,
            second,
        },
    )
}
