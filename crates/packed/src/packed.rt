// The packed store, with what always holds of it.
ghost use Rattle.std.specs.Prelude.{◌≡◌, ◌≤◌, slice_get};
ghost use Rattle.arrayvec.specs.ArrayVec.{array_vec_len};
ghost use Rattle.stores.specs.Layout.{new_tables};
ghost use Rattle.stores.specs.Plans.{limits_of};
ghost use Rattle.stores.specs.Tables.{rows_in};
ghost use Rattle.packed.specs.Stretches.{InOrder, tables_of};
ghost use Rattle.packed.specs.Soundness.{sound_store};

use crate::laying::lay_out;
use crate::stretch::Stretch;
use arrayvec::ArrayVec;
use stores::{AddRefusal, Edit, Plan, Row, Store, Visit};

// Tables over lent rows. Each has a stretch of its own, and a removal moves the later rows of the stretch down.
// A proof sees the items of an ArrayVec and not its capacity, so the bound on their number is a fact of its own.
#[derive(Drop)]
pub struct Packed<'a> {
    rows: &'a mut [Row],
    stretches: ArrayVec<Stretch, 8>,
    ghost few: { array_vec_len stretches ≤ 8 },
    ghost order: { ∥ InOrder 0 rows.now stretches.items ∥₁ },
}

impl<'a> Packed<'a> {
    // A store with the tables of the plan. What the rows held before is forgotten.
    pub fn new<const N: usize>(plan: Plan<N>, rows: &'a mut [Row; N]) -> Packed<'a>
        ensures { tables_of result.rows.now result.stretches.items ≡ new_tables (limits_of plan.entry) }
    {
        Packed {
            stretches: lay_out(&plan),
            rows,
        }
    }

    // Where the table lies, and how far it is filled.
    fn stretch(&self, table: usize) -> Option<Stretch>
        ensures { result ≡ slice_get self.now.stretches.items table }
    {
        self.stretches.get(table).copied()
    }

    // The rows of the table, none where there is no such table.
    fn rows_in(&self, table: usize) -> &[Row]
        ensures { result.now ≡ rows_in (tables_of self.now.rows.now self.now.stretches.items) table }
    {
        match self.stretch(table) {
            Some(at) => at.used_rows(self.rows),
            None => &[],
        }
    }
}

impl<'a> Store for Packed<'a> {
    ghost tables = { λ s. tables_of s.rows.now s.stretches.items };

    ghost sound = { λ s. sound_store s.rows.now s.stretches.items s.few s.order };

    fn table_count(&self) -> usize {
        self.stretches.len()
    }

    fn row_count(&self, table: usize) -> Option<usize> {
        let at = self.stretch(table)?;
        Some(at.fill.used)
    }

    fn row(&self, table: usize, place: usize) -> Option<Row> {
        self.rows_in(table).get(place).copied()
    }

    fn add(&mut self, table: usize, first: i32, second: i32) -> Result<u32, AddRefusal> {
        let at = self.stretches.get_mut(table).ok_or(AddRefusal::NoTable)?;
        at.add(self.rows, first, second)
    }

    fn replace(&mut self, table: usize, place: usize, first: i32, second: i32) -> bool {
        let Some(at) = self.stretch(table) else {
            return false;
        };
        at.replace(self.rows, place, first, second)
    }

    fn remove(&mut self, table: usize, place: usize) -> bool {
        let Some(at) = self.stretches.get_mut(table) else {
            return false;
        };
        at.remove(self.rows, place)
    }

    fn walk<V: Visit>(&self, table: usize, visitor: &mut V) {
        for &row in self.rows_in(table) {
            visitor.visit(row);
        }
    }

    fn sweep<E: Edit>(&mut self, table: usize, editor: &E) -> usize {
        let Some(at) = self.stretches.get_mut(table) else {
            return 0;
        };
        at.sweep(self.rows, editor)
    }
}
