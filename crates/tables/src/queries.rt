// Predicates over rows, and what a selection answers.
ghost use Rattle.std.specs.Prelude.{◌≡◌};
ghost use Rattle.tables.specs.Queries.{holds as in_range, matches as matched};

use sessions::Sealed;
use stores::Row;

// A range of values, both ends counted. One whose low end exceeds the high one holds nothing.
#[derive(Clone, Copy, PartialEq, Eq, Debug)]
pub struct Range {
    pub low: i32,
    pub high: i32,
}

// Ranges on the key, the first and the second field of a row, each of which may be absent.
#[derive(Clone, Copy, PartialEq, Eq, Debug)]
pub struct Predicate {
    pub key: Option<Range>,
    pub first: Option<Range>,
    pub second: Option<Range>,
}

// A row as it is answered.
#[derive(Clone, Copy, Debug)]
pub struct Place<L> {
    pub key: u32,
    pub first: Sealed<L>,
    pub second: Sealed<L>,
}

fn holds(range: Option<Range>, value: i64) -> bool
    ensures { result ≡ in_range range value }
{
    match range {
        None => true,
        Some(range) => range.low as i64 <= value && value <= range.high as i64,
    }
}

impl Predicate {
    pub fn matches(self, row: Row) -> bool
        ensures { result ≡ matched self row }
    {
        holds(self.key, row.key as i64)
            && holds(self.first, row.first as i64)
            && holds(self.second, row.second as i64)
    }
}
