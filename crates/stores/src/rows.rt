// Rows, and what may become of them.
ghost use Rattle.std.specs.Prelude.{◌≡◌};
ghost use Rattle.stores.specs.Changes.{number_of};

use thiserror::Error;

// A row of a table: its key, and the values of its first and second field.
#[derive(Clone, Copy, PartialEq, Eq, Debug, Default)]
pub struct Row {
    pub key: u32,
    pub first: i32,
    pub second: i32,
}

// Why a row is not added.
#[derive(Clone, Copy, PartialEq, Eq, Debug, Error)]
pub enum AddRefusal {
    #[error("no table of that number")]
    NoTable,
    #[error("the table is at its limit")]
    TableFull,
    #[error("the keys of the table are used up")]
    KeysSpent,
}

impl AddRefusal {
    pub fn number(self) -> u8
        ensures { result ≡ number_of self }
    {
        match self {
            AddRefusal::NoTable => 3,
            AddRefusal::TableFull => 12,
            AddRefusal::KeysSpent => 13,
        }
    }
}

// What becomes of a row in a pass over its table.
#[derive(Clone, Copy, PartialEq, Eq, Debug)]
pub enum Fate {
    Keep,
    Rewrite(i32, i32),
    Remove,
}
