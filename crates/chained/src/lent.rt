// The cells lent to a store, and the steps along their links. A row has no place of its own in the list, so a walk, a pass and
// a look-up count their steps.
ghost use Rattle.std.specs.Prelude.{◌≡◌, ◌<◌, ◌≤◌, length, fold, ◌≢◌, MatchOption, slice_get};
ghost use Rattle.stores.specs.Changes.{adding, replacing, removing, sweeping};
ghost use Rattle.chained.specs.Links.{links, rows_of_chain, used};
ghost use Rattle.chained.specs.declared.links.Free.{Free};
ghost use Rattle.chained.specs.Steps.{Alone, Appended, Found, Inside, LedOn, Linked, Rewritten, Unlinked, link_set, values_set};

use crate::links::{Cell, Chain, Free, Spot};
use stores::{AddRefusal, Edit, Fate, Row, Visit};

// Apart from the store, whose invariant would stand in the way of writing a cell. That a chain lies in the cells and what
// links both is required of each method, since no struct can hold both where each is lent from behind a reference.
#[derive(Drop)]
pub struct Lent<'a> {
    pub cells: &'a mut [Cell],
}

impl<'a> Lent<'a> {
    pub fn walk<V: Visit>(&self, chain: Chain, visitor: &mut V)
        requires { Inside self.now.cells.now chain }
        ensures { visitor.new ≡ fold V.Visit.step visitor.old (rows_of_chain self.now.cells.now chain) }
    {
        let mut here = chain.head;
        for _place in 0..chain.count {
            let cell = self.cells[here];
            visitor.visit(cell.row);
            here = cell.next;
        }
    }

    pub fn row(&self, chain: Chain, place: usize) -> Option<Row>
        requires { Inside self.now.cells.now chain }
        ensures { result ≡ slice_get (rows_of_chain self.now.cells.now chain) place }
    {
        let spot = self.find(chain, place)?;
        Some(self.cells[spot.here].row)
    }

    pub fn add(
        &mut self,
        chain: &mut Chain,
        free: &mut Free,
        first: i32,
        second: i32,
    ) -> Result<u32, AddRefusal>
        requires { Linked self.old.cells.now (links chain.old free.old) }
        ensures { Rewritten (Alone (λ ts n. adding ts n first second) result) (links chain.old free.old) (links chain.new free.new) self.old.cells.now self.new.cells.now }
    {
        if chain.count >= chain.limit {
            return Err(AddRefusal::TableFull);
        }
        if chain.given >= 1_000_000 {
            return Err(AddRefusal::KeysSpent);
        }
        let key = chain.given + 1;
        self.append(chain, free, Row { key, first, second });
        chain.given = key;
        Ok(key)
    }

    // No link changes, so whichever the free cells are, they stay as they were.
    pub fn replace(&mut self, chain: Chain, place: usize, first: i32, second: i32) -> bool
        requires { Inside self.old.cells.now chain }
        ensures { (free : Free) → Linked self.old.cells.now (links chain free) → Rewritten (Alone (λ ts n. replacing ts n place first second) result) (links chain free) (links chain free) self.old.cells.now self.new.cells.now }
    {
        let Some(spot) = self.find(chain, place) else {
            return false;
        };
        self.rewrite(spot.here, first, second);
        true
    }

    pub fn remove(&mut self, chain: &mut Chain, free: &mut Free, place: usize) -> bool
        requires { Linked self.old.cells.now (links chain.old free.old) }
        ensures { Rewritten (Alone (λ ts n. removing ts n place) result) (links chain.old free.old) (links chain.new free.new) self.old.cells.now self.new.cells.now }
    {
        let Some(spot) = self.find(*chain, place) else {
            return false;
        };
        self.unlink(chain, free, place, spot);
        true
    }

    // One step along the links for each row, which stays or is linked out where it is met.
    pub fn sweep<E: Edit>(&mut self, chain: &mut Chain, free: &mut Free, editor: &E) -> usize
        requires { Linked self.old.cells.now (links chain.old free.old) }
        ensures { Rewritten (Alone (sweeping (E.Edit.decides editor.now)) result) (links chain.old free.old) (links chain.new free.new) self.old.cells.now self.new.cells.now }
    {
        let mut spot = Spot::first(chain.head);
        let mut place = 0;
        let mut touched = 0;
        for _turn in 0..chain.count {
            let cell = self.cells[spot.here];
            match editor.decide(cell.row) {
                Fate::Keep => {
                    spot.before = spot.here;
                    place += 1;
                }
                Fate::Rewrite(first, second) => {
                    self.rewrite(spot.here, first, second);
                    spot.before = spot.here;
                    place += 1;
                    touched += 1;
                }
                Fate::Remove => {
                    self.unlink(chain, free, place, spot);
                    touched += 1;
                }
            }
            spot.here = cell.next;
        }
        touched
    }

    // Where the row at a place lies, if there is one.
    fn find(&self, chain: Chain, place: usize) -> Option<Spot>
        requires { Inside self.now.cells.now chain }
        ensures { MatchOption result (chain.count ≤ place) (λ spot. (place < chain.count) × Found (used self.now.cells.now chain) place spot) }
    {
        if place >= chain.count {
            return None;
        }
        let mut spot = Spot::first(chain.head);
        for _step in 0..place {
            let cell = self.cells[spot.here];
            spot = Spot {
                before: spot.here,
                here: cell.next,
            };
        }
        Some(spot)
    }

    // The link of a cell is set, and its row stays.
    fn link(&mut self, cell: usize, next: usize)
        requires { cell < length self.old.cells.now }
        ensures { self.new.cells.now ≡ link_set self.old.cells.now cell next }
    {
        self.cells[cell].next = next;
    }

    // The values of the row in a cell are set; its key stays, and the link.
    fn rewrite(&mut self, cell: usize, first: i32, second: i32)
        requires { cell < length self.old.cells.now }
        ensures { self.new.cells.now ≡ values_set self.old.cells.now cell first second }
    {
        let row = &mut self.cells[cell].row;
        *row = Row {
            first,
            second,
            ..*row
        };
    }

    // The first cells of a chain, so many that end in `last`, lead on to another cell; answers the head of the chain.
    fn lead_on(&mut self, head: usize, count: usize, last: usize, to: usize) -> usize
        requires { (count ≢ 0) → last < length self.old.cells.now }
        ensures { LedOn self.old.cells.now self.new.cells.now head count last to result }
    {
        if count == 0 {
            return to;
        }
        self.link(last, to);
        head
    }

    // The first of the free cells becomes the last of a table, with a row in it.
    fn append(&mut self, chain: &mut Chain, free: &mut Free, row: Row)
        requires linked { Linked self.old.cells.now (links chain.old free.old) }
        requires room { chain.old.count < chain.old.limit }
        ensures { Appended (links chain.old free.old) (links chain.new free.new) row self.old.cells.now self.new.cells.now }
    {
        let cell = free.head;
        free.head = self.cells[cell].next;
        free.count -= 1;
        chain.head = self.lead_on(chain.head, chain.count, chain.last, cell);
        self.cells[cell] = Cell { row, next: cell };
        chain.last = cell;
        chain.count += 1;
    }

    // The row at a place leaves its table, and its cell becomes the first of the free ones.
    fn unlink(&mut self, chain: &mut Chain, free: &mut Free, place: usize, spot: Spot)
        requires linked { Linked self.old.cells.now (links chain.old free.old) }
        requires there { place < chain.old.count }
        requires found { Found (used self.old.cells.now chain.old) place spot }
        ensures { Unlinked (links chain.old free.old) (links chain.new free.new) place self.old.cells.now self.new.cells.now }
    {
        let next = self.cells[spot.here].next;
        chain.head = self.lead_on(chain.head, place, spot.before, next);
        self.link(spot.here, free.head);
        if place + 1 == chain.count {
            chain.last = spot.before;
        }
        chain.count -= 1;
        free.head = spot.here;
        free.count += 1;
    }
}
