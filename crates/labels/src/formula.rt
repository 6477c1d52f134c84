// The formula of a word, for people to read.
ghost use Rattle.std.specs.Prelude.{Decides};
ghost use Rattle.labels.specs.Consent.{Smallest};

use crate::bits::has_bit;
use std::fmt;

// A word that is printed as its formula.
#[derive(Drop)]
pub struct Formula {
    pub word: u64,
}

// Whether the parties of a set suffice, and no fewer of them do.
fn is_smallest(word: u64, set: u32) -> bool
    ensures { Decides result (Smallest word set) }
{
    has_bit(word, set) && !(0..set).any(|part| part & set == part && has_bit(word, part))
}

fn write_parties<W: fmt::Write>(f: &mut fmt::Formatter<W>, set: u32) -> fmt::Result {
    let parties = (0..6).filter(|party| has_bit(u64::from(set), *party));
    for (i, party) in parties.enumerate() {
        let between = if i == 0 { "" } else { "&" };
        write!(f, "{between}{party}")?;
    }
    Ok(())
}

impl fmt::Display for Formula {
    fn fmt<W: fmt::Write>(&self, f: &mut fmt::Formatter<W>) -> fmt::Result {
        if self.word == 0 {
            return f.write_str("never");
        }
        if has_bit(self.word, 0) {
            return f.write_str("always");
        }
        let sets = (1..64).filter(|set| is_smallest(self.word, *set));
        for (i, set) in sets.enumerate() {
            let between = if i == 0 { "" } else { " | " };
            write!(f, "{between}")?;
            write_parties(f, set)?;
        }
        Ok(())
    }
}
