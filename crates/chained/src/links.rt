// Cells that are linked by their numbers in the list that is lent, as this store's cells have to be, and the chains that they
// form.
ghost use Rattle.std.specs.Prelude.{◌≡◌};

use stores::Row;

// A row, and the number of the cell that comes after it.
#[derive(Clone, Copy, PartialEq, Eq, Debug, Default)]
pub struct Cell {
    pub row: Row,
    pub next: usize,
}

// The chain of a table: its first and last cell, how many rows it has and may have, and how many keys were given in it.
#[derive(Clone, Copy, Default)]
pub struct Chain {
    pub head: usize,
    pub last: usize,
    pub count: usize,
    pub limit: usize,
    pub given: u32,
}

// The chain of the free cells.
#[derive(Clone, Copy)]
pub struct Free {
    pub head: usize,
    pub count: usize,
}

// The cell of a row, and of the row before it if there is one.
#[derive(Clone, Copy)]
pub struct Spot {
    pub before: usize,
    pub here: usize,
}

impl Spot {
    // The first row of a chain, which has none before it.
    pub fn first(head: usize) -> Spot
        ensures { result ≡ record { before = head; here = head } }
    {
        Spot {
            before: head,
            here: head,
        }
    }
}
