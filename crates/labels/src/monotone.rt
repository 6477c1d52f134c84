// Whether a word is monotone, bit by bit.
ghost use Rattle.std.specs.Prelude.{Decides};
ghost use Rattle.labels.specs.Consent.{RisesFrom, Monotone};

use crate::bits::has_bit;

// A number with every bit of n is not below n, so the others are not asked.
fn rises_from(word: u64, n: u32) -> bool
    ensures { Decides result (RisesFrom word n) }
{
    !has_bit(word, n) || (n..64).all(|m| n & m != n || has_bit(word, m))
}

pub fn is_monotone(word: u64) -> bool
    ensures { Decides result (Monotone word) }
{
    (0..64).all(|n| rises_from(word, n))
}
