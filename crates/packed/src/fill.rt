// How far the rows of one table are filled: each method changes them as if the table stood alone.
ghost use Rattle.std.specs.Prelude.{◌≡◌, ◌≤◌, length, take};
ghost use Rattle.stores.specs.Changes.{adding, replacing, removing, sweeping, edited, touched};
ghost use Rattle.packed.specs.Stretches.{Alone, held};

use stores::{AddRefusal, Edit, Fate, Row};

// How many rows of a stretch are used, and how many keys were given in it. That they lie within its rows is required of each
// change: a struct of both would keep from its caller what the rows hold afterwards.
#[derive(Clone, Copy, Default)]
pub struct Fill {
    pub used: usize,
    pub given: u32,
}

impl Fill {
    pub fn add(&mut self, rows: &mut [Row], first: i32, second: i32) -> Result<u32, AddRefusal>
        requires { self.old.used ≤ length rows.old }
        ensures change { Alone (λ ts n. adding ts n first second) result (held rows.old self.old) (held rows.new self.new) }
        ensures within { self.new.used ≤ length rows.new }
    {
        if self.used >= rows.len() {
            return Err(AddRefusal::TableFull);
        }
        if self.given >= 1_000_000 {
            return Err(AddRefusal::KeysSpent);
        }
        let key = self.given + 1;
        rows[self.used] = Row { key, first, second };
        self.used += 1;
        self.given = key;
        Ok(key)
    }

    pub fn replace(&self, rows: &mut [Row], place: usize, first: i32, second: i32) -> bool
        requires { self.now.used ≤ length rows.old }
        ensures { Alone (λ ts n. replacing ts n place first second) result (held rows.old self.now) (held rows.new self.now) }
    {
        if place >= self.used {
            return false;
        }
        let key = rows[place].key;
        rows[place] = Row { key, first, second };
        true
    }

    pub fn remove(&mut self, rows: &mut [Row], place: usize) -> bool
        requires { self.old.used ≤ length rows.old }
        ensures change { Alone (λ ts n. removing ts n place) result (held rows.old self.old) (held rows.new self.new) }
        ensures within { self.new.used ≤ length rows.new }
    {
        if place >= self.used {
            return false;
        }
        rows.copy_within(place + 1..self.used, place);
        self.used -= 1;
        true
    }

    pub fn sweep<E: Edit>(&mut self, rows: &mut [Row], editor: &E) -> usize
        requires { self.old.used ≤ length rows.old }
        ensures change { Alone (sweeping (E.Edit.decides editor.now)) result (held rows.old self.old) (held rows.new self.new) }
        ensures within { self.new.used ≤ length rows.new }
    {
        let Compacted { kept, touched } = compact(&mut rows[..self.used], editor);
        self.used = kept;
        touched
    }
}

// How many rows a pass leaves, and how many it rewrote or removed.
#[derive(Clone, Copy)]
struct Compacted {
    kept: usize,
    touched: usize,
}

// A pass over all rows. Those that stay are written in front, never ahead of the row that is read.
// They are moved by index, since a slice has no `retain`.
fn compact<E: Edit>(rows: &mut [Row], editor: &E) -> Compacted
    ensures kept { take result.kept rows.new ≡ edited (E.Edit.decides editor.now) rows.old }
    ensures few { result.kept ≤ length rows.old }
    ensures count { result.touched ≡ touched (E.Edit.decides editor.now) rows.old }
{
    let mut kept = 0;
    let mut touched = 0;
    for read in 0..rows.len() {
        let row = rows[read];
        match editor.decide(row) {
            Fate::Keep => {
                rows[kept] = row;
                kept += 1;
            }
            Fate::Rewrite(first, second) => {
                rows[kept] = Row {
                    first,
                    second,
                    ..row
                };
                kept += 1;
                touched += 1;
            }
            Fate::Remove => {
                touched += 1;
            }
        }
    }
    Compacted { kept, touched }
}
