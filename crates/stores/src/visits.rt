// What is taken along over the rows of a table: a visitor that sees each, an editor that decides on each.
// Traits and no closures: what they do is a function that an equation can name, and no caller owes that it may be called.
ghost use Rattle.std.specs.Prelude.{◌≡◌};
ghost use Rattle.stores.specs.Visits.{perhaps};
ghost use Rattle.stores.specs.declared.rows.Fate.{Fate};
ghost use Rattle.stores.specs.declared.rows.Row.{Row};

use crate::rows::{Fate, Row};

// What a walk over a table's rows takes along.
pub trait Visit {
    ghost step: { Self → Row → Self };

    fn visit(&mut self, row: Row)
        ensures { self.new ≡ step self.old row };
}

// What decides on each row in a pass over a table.
pub trait Edit {
    ghost decides: { Self → Row → Fate };

    fn decide(&self, row: Row) -> Fate
        ensures { result ≡ decides self.now row };
}

// A row is visited, if there is one.
pub fn visit_row<V: Visit>(visitor: &mut V, row: Option<Row>)
    ensures { visitor.new ≡ perhaps V.Visit.step visitor.old row }
{
    if let Some(row) = row {
        visitor.visit(row);
    }
}
