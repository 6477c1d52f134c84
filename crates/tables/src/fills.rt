// The walk that fills answer places.
ghost use Rattle.std.specs.Prelude.{◌≡◌, map, fold};
ghost use Rattle.stores.specs.Tables.{rows_in};
ghost use Rattle.tables.specs.Queries.{matching, place as row_place};
ghost use Rattle.tables.specs.Outcomes.{filled};
ghost use Rattle.tables.specs.Fills.{filled_by};

use crate::places::Filling;
use crate::queries::{Place, Predicate};
use crate::records::TableRecord;
use labels::Label;
use sessions::Sealed;
use stores::{Row, Store, Visit};

fn place<L: Label>(record: TableRecord<L>, row: Row) -> Place<L>
    ensures { result ≡ row_place L.Label.kind «record» row }
{
    Place {
        key: row.key,
        first: Sealed::new(record.first, row.first),
        second: Sealed::new(record.second.label_of(row.first), row.second),
    }
}

impl<'a, 'b, L: Label> Visit for Filling<'a, 'b, L> {
    ghost step = { filled_by L.Label.kind };

    fn visit(&mut self, row: Row) {
        let next = self.next;
        if self.predicate.matches(row) && next < self.places.len() {
            self.places[next] = place(*self.record, row);
            self.next = next + 1;
        }
    }
}

// A walk that fills places, with the fact that they are still those that were lent.
fn pour<L: Label, S: Store>(store: &S, table: usize, filling: &mut Filling<L>)
    ensures after { filling.new ≡ fold (filled_by L.Label.kind) filling.old (rows_in (S.Store.tables store.now) table) }
    ensures same { filling.new.places.ghost_name ≡ filling.old.places.ghost_name }
{
    store.walk(table, filling);
}

// The matching rows fill the first places, as far as these reach.
pub fn fill<L: Label, S: Store>(
    store: &S,
    table: usize,
    record: TableRecord<L>,
    predicate: Predicate,
    places: &mut [Place<L>],
)
    ensures { places.new ≡ filled (map (row_place L.Label.kind «record») (matching predicate (rows_in (S.Store.tables store.now) table))) places.old }
{
    let mut filling = Filling {
        places,
        next: 0,
        record: &record,
        predicate,
    };
    pour(store, table, &mut filling);
}
