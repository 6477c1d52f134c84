// The bits of a word.
ghost use Rattle.std.specs.Prelude.{◌≡◌, ◌==◌};
ghost use Rattle.labels.specs.Words.{bit};

pub fn has_bit(word: u64, n: u32) -> bool
    ensures { result ≡ (bit word n == 1) }
{
    match word.checked_shr(n) {
        Some(shifted) => shifted & 1 == 1,
        None => false,
    }
}
