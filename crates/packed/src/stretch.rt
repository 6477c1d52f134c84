// The stretch of one table in the lent rows. No method writes a row outside of it.
ghost use Rattle.std.specs.Prelude.{◌≡◌, ◌+◌, ◌≤◌, take};
ghost use Rattle.stores.specs.Changes.{adding, replacing, removing, sweeping};
ghost use Rattle.packed.specs.Stretches.{Alone, Lies, Rewritten, part};

use crate::fill::Fill;
use std::ops::Range;
use stores::{AddRefusal, Edit, Row};

// Where a stretch lies in the lent rows, and how far it is filled. That its table is sound there is required of each change:
// the rows are the store's, and a struct of both could not be made of a part of them.
#[derive(Clone, Copy, Default)]
pub struct Stretch {
    pub from: usize,
    pub limit: usize,
    pub fill: Fill,
}

impl Stretch {
    // The rows of the stretch, as far as they are filled.
    pub fn used_rows<'r>(&self, rows: &'r [Row]) -> &'r [Row]
        requires { Lies rows.now self.now }
        ensures { result.now ≡ take self.now.fill.used (part rows.now self.now) }
    {
        &rows[self.from..self.from + self.fill.used]
    }

    // The places of the stretch among the lent rows.
    fn places(&self) -> Range<usize>
        requires { self.now.from + self.now.limit ≤ usize.MAX }
        ensures { result ≡ record { start = self.now.from; end = self.now.from + self.now.limit } }
    {
        self.from..self.from + self.limit
    }

    pub fn add(&mut self, rows: &mut [Row], first: i32, second: i32) -> Result<u32, AddRefusal>
        requires { Lies rows.old self.old }
        ensures { Rewritten (Alone (λ ts n. adding ts n first second) result) self.old self.new rows.old rows.new }
    {
        let places = self.places();
        self.fill.add(&mut rows[places], first, second)
    }

    pub fn replace(&self, rows: &mut [Row], place: usize, first: i32, second: i32) -> bool
        requires { Lies rows.old self.now }
        ensures { Rewritten (Alone (λ ts n. replacing ts n place first second) result) self.now self.now rows.old rows.new }
    {
        let places = self.places();
        self.fill.replace(&mut rows[places], place, first, second)
    }

    pub fn remove(&mut self, rows: &mut [Row], place: usize) -> bool
        requires { Lies rows.old self.old }
        ensures { Rewritten (Alone (λ ts n. removing ts n place) result) self.old self.new rows.old rows.new }
    {
        let places = self.places();
        self.fill.remove(&mut rows[places], place)
    }

    pub fn sweep<E: Edit>(&mut self, rows: &mut [Row], editor: &E) -> usize
        requires { Lies rows.old self.old }
        ensures { Rewritten (Alone (sweeping (E.Edit.decides editor.now)) result) self.old self.new rows.old rows.new }
    {
        let places = self.places();
        self.fill.sweep(&mut rows[places], editor)
    }
}
