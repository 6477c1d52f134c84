// What both stores are tried with.
ghost use Rattle.std.specs.Prelude.{◌%◌, pos, if◌then◌else◌, nat_eq};
ghost use Rattle.stores.specs.declared.rows.Fate.TheVariants.{Keep, Rewrite, Remove};

use std::process::Abort;
use stores::{Edit, Fate, Row, Store};

// A row as it is lent, holding what a new store forgets.
pub const GARBAGE: Row = Row {
    key: 77,
    first: -7,
    second: 7,
};

// A table, the values of a row to add to it, and the key given or the refusal, by its number in docs/MODEL.md.
pub type Adding = (usize, i32, i32, Result<u32, u8>);

pub fn check_adds<S: Store>(rt: &impl Abort, store: &mut S, adds: &[Adding]) {
    for &(table, first, second, expected) in adds {
        let answer = store.add(table, first, second);
        assert_eq!(rt; answer.map_err(|refusal| refusal.number()), expected);
    }
}

// A table, a place in it, and the key and values of the row there.
pub type Reading = (usize, usize, Option<(u32, i32, i32)>);

pub fn check_rows<S: Store>(rt: &impl Abort, store: &S, readings: &[Reading]) {
    for &(table, place, expected) in readings {
        let row = store.row(table, place);
        assert_eq!(rt; row.map(|row| (row.key, row.first, row.second)), expected);
    }
}

// Removes the rows with an even key, and rewrites the third.
pub struct Thinning;

impl Edit for Thinning {
    ghost decides = { λ _ r. (if nat_eq (r.key % 2) 0 then Remove else (if nat_eq r.key 3 then Rewrite (pos 7) (pos 8) else Keep)) };

    fn decide(&self, row: Row) -> Fate {
        if row.key % 2 == 0 {
            Fate::Remove
        } else if row.key == 3 {
            Fate::Rewrite(7, 8)
        } else {
            Fate::Keep
        }
    }
}
