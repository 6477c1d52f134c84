// A plan: limits of tables that fit into the rows lent.
ghost use Rattle.std.specs.Prelude.{◌≡◌, ◌≤◌, length, take, sum};

use thiserror::Error;

// Limits that cannot be laid out.
#[derive(Clone, Copy, PartialEq, Eq, Debug, Error)]
#[error("store cannot be laid out")]
pub struct LayoutRefusal;

impl LayoutRefusal {
    pub fn number(self) -> u8
        ensures { result ≡ 16 }
    {
        16
    }
}

// The limits of at most 8 tables, for exactly N lent rows: a store over a plan never lacks a row.
// An array with its count: an ArrayVec is not `Copy`, and who holds a plan may lay out as many stores by it as he wants.
#[derive(Clone, Copy)]
pub struct Plan<const N: usize> {
    pub(crate) limits: [usize; 8],
    pub(crate) count: usize,
    ghost room: { length limits ≡ 8 },
    ghost some: { 1 ≤ count },
    ghost few: { count ≤ 8 },
    ghost small: { sum (take count limits) ≤ 2048 },
    ghost fits: { sum (take count limits) ≤ N },
}
