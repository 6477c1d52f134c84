// The interface of a store.
ghost use Rattle.std.specs.Prelude.{◌≡◌, List, length, fold};
ghost use Rattle.stores.specs.Tables.{Table, Sound, SameLimits, row_count, row_at, rows_in};
ghost use Rattle.stores.specs.Changes.{changed, adding, replacing, removing, sweeping};

use crate::rows::{AddRefusal, Fate, Row};
use crate::visits::{Edit, Visit, visit_row};

// Tables of rows. What each function answers and leaves is an equation with the store's meaning.
pub trait Store {
    ghost tables: { Self → List Table };

    fn table_count(&self) -> usize
        ensures { result ≡ length (tables self.now) };

    fn row_count(&self, table: usize) -> Option<usize>
        ensures { result ≡ row_count (tables self.now) table };

    fn row(&self, table: usize, place: usize) -> Option<Row>
        ensures { result ≡ row_at (tables self.now) table place };

    // The values of a row's two fields are two parameters throughout: a pair would be made at each call to be taken apart there.
    fn add(&mut self, table: usize, first: i32, second: i32) -> Result<u32, AddRefusal>
        ensures change { changed result (tables self.new) ≡ adding (tables self.old) table first second }
        ensures limits { SameLimits (tables self.old) (tables self.new) };

    fn replace(&mut self, table: usize, place: usize, first: i32, second: i32) -> bool
        ensures change { changed result (tables self.new) ≡ replacing (tables self.old) table place first second }
        ensures limits { SameLimits (tables self.old) (tables self.new) };

    fn remove(&mut self, table: usize, place: usize) -> bool
        ensures change { changed result (tables self.new) ≡ removing (tables self.old) table place }
        ensures limits { SameLimits (tables self.old) (tables self.new) };

    // Every row of a table is visited, front to back. Rows are asked for by their places, since a store may keep them anywhere.
    fn walk<V: Visit>(&self, table: usize, visitor: &mut V)
        ensures { visitor.new ≡ fold V.Visit.step visitor.old (rows_in (tables self.now) table) }
    {
        let count = self.row_count(table).unwrap_or(0);
        for place in 0..count {
            visit_row(visitor, self.row(table, place));
        }
    }

    // Every row of a table is kept, rewritten or removed; answers how many were rewritten or removed. It goes by places too, from
    // the last to the first, so that a removal moves no row that is still to come.
    fn sweep<E: Edit>(&mut self, table: usize, editor: &E) -> usize
        ensures change { changed result (tables self.new) ≡ sweeping (E.Edit.decides editor.now) (tables self.old) table }
        ensures limits { SameLimits (tables self.old) (tables self.new) }
    {
        let count = self.row_count(table).unwrap_or(0);
        let mut touched = 0;
        for place in (0..count).rev() {
            if let Some(row) = self.row(table, place) {
                match editor.decide(row) {
                    Fate::Keep => {}
                    Fate::Rewrite(first, second) => {
                        let _ = self.replace(table, place, first, second);
                        touched += 1;
                    }
                    Fate::Remove => {
                        let _ = self.remove(table, place);
                        touched += 1;
                    }
                }
            }
        }
        touched
    }

    // What each store must prove: a law, since it stands below the last function.
    ghost sound: { (s : Self) → Sound (tables s) };
}
