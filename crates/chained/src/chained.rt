// The chained store, with what always holds of it.
ghost use Rattle.std.specs.Prelude.{◌≡◌, ◌≤◌};
ghost use Rattle.arrayvec.specs.ArrayVec.{array_vec_len};
ghost use Rattle.stores.specs.Layout.{new_tables};
ghost use Rattle.stores.specs.Plans.{limits_of};
ghost use Rattle.chained.specs.Links.{Laid, tables_of};
ghost use Rattle.chained.specs.Soundness.{sound_store};

use crate::laying::{empty_chains, link_in_order};
use crate::lent::Lent;
use crate::links::{Cell, Chain, Free};
use arrayvec::ArrayVec;
use stores::{AddRefusal, Edit, Plan, Row, Store, Visit};

// Tables over lent cells. A row lies in any cell, and the cell of a removed row serves the table that next adds one.
#[derive(Drop)]
pub struct Chained<'a> {
    lent: Lent<'a>,
    chains: ArrayVec<Chain, 8>,
    free: Free,
    // A clause sees the elements of the vector, and not its capacity.
    ghost few: { array_vec_len chains ≤ 8 },
    ghost laid: { ∥ Laid lent.cells.now free chains.items ∥₁ },
}

impl<'a> Chained<'a> {
    // A store with the tables of the plan. What the cells held before is forgotten.
    pub fn new<const N: usize>(plan: Plan<N>, cells: &'a mut [Cell; N]) -> Chained<'a>
        ensures { tables_of result.lent.cells.now result.chains.items ≡ new_tables (limits_of plan.entry) }
    {
        let count = plan.limits().iter().sum();
        link_in_order(&mut cells[..count]);
        Chained {
            lent: Lent { cells },
            chains: empty_chains(&plan),
            free: Free { head: 0, count },
        }
    }
}

impl<'a> Store for Chained<'a> {
    ghost tables = { λ s. tables_of s.lent.cells.now s.chains.items };

    ghost sound = { λ s. sound_store s.lent.cells.now s.chains.items s.free s.few s.laid };

    fn table_count(&self) -> usize {
        self.chains.len()
    }

    fn row_count(&self, table: usize) -> Option<usize> {
        let chain = self.chains.get(table)?;
        Some(chain.count)
    }

    fn row(&self, table: usize, place: usize) -> Option<Row> {
        let chain = self.chains.get(table)?;
        self.lent.row(*chain, place)
    }

    fn add(&mut self, table: usize, first: i32, second: i32) -> Result<u32, AddRefusal> {
        let Some(chain) = self.chains.get_mut(table) else {
            return Err(AddRefusal::NoTable);
        };
        self.lent.add(chain, &mut self.free, first, second)
    }

    fn replace(&mut self, table: usize, place: usize, first: i32, second: i32) -> bool {
        let Some(chain) = self.chains.get(table) else {
            return false;
        };
        self.lent.replace(*chain, place, first, second)
    }

    fn remove(&mut self, table: usize, place: usize) -> bool {
        let Some(chain) = self.chains.get_mut(table) else {
            return false;
        };
        self.lent.remove(chain, &mut self.free, place)
    }

    fn walk<V: Visit>(&self, table: usize, visitor: &mut V) {
        if let Some(chain) = self.chains.get(table) {
            self.lent.walk(*chain, visitor);
        }
    }

    fn sweep<E: Edit>(&mut self, table: usize, editor: &E) -> usize {
        let Some(chain) = self.chains.get_mut(table) else {
            return 0;
        };
        self.lent.sweep(chain, &mut self.free, editor)
    }
}
