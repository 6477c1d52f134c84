// Consent labels: a formula over six parties for secrecy and one for integrity, made from two words by one call, which takes monotone words alone.
ghost use Rattle.std.specs.Prelude.{◌≡◌};
ghost use Rattle.labels.specs.Consent.{consents, Lawful, Made, PartyWords};
ghost use Rattle.labels.specs.Lattices.{consent_lattice};
ghost use Rattle.labels.specs.Monotones.{consent_keeps};

use crate::formula::Formula;
use crate::monotone::is_monotone;
use crate::{Label, UnlawfulLabel};
use std::fmt;

// Two formulas over the parties 0 to 5, each as a word that has bit n set where the formula holds with the consent of those parties p for which bit p of n is set.
#[derive(Clone, Copy, PartialEq, Eq, Debug)]
pub struct Consent {
    secrecy: u64,
    integrity: u64,
}

impl Consent {
    // The label of two words, if both are monotone.
    pub fn new(secrecy: u64, integrity: u64) -> Result<Consent, UnlawfulLabel>
        ensures { Made secrecy integrity result }
    {
        if is_monotone(secrecy) && is_monotone(integrity) {
            Ok(Consent { secrecy, integrity })
        } else {
            Err(UnlawfulLabel)
        }
    }

    pub fn secrecy(self) -> u64
        ensures { result ≡ self.secrecy }
    {
        self.secrecy
    }

    pub fn integrity(self) -> u64
        ensures { result ≡ self.integrity }
    {
        self.integrity
    }

    // Nothing to run: that the word of a party has precisely the bits n with the party's bit set in n.
    pub fn party_words()
        ensures { PartyWords }
    {}
}

impl Label for Consent {
    ghost kind = { consents };

    ghost lawful = { Lawful };

    ghost lattice = { consent_lattice };

    ghost keeps_lawful = { consent_keeps };

    fn above_lowest(self) {}

    fn lowest() -> Consent {
        Consent {
            secrecy: u64::MAX,
            integrity: 0,
        }
    }

    fn flows_to(self, other: Consent) -> bool {
        other.secrecy & self.secrecy == other.secrecy
            && self.integrity & other.integrity == self.integrity
    }

    fn join(self, other: Consent) -> Consent {
        Consent {
            secrecy: self.secrecy & other.secrecy,
            integrity: self.integrity | other.integrity,
        }
    }

    fn meet(self, other: Consent) -> Consent {
        Consent {
            secrecy: self.secrecy | other.secrecy,
            integrity: self.integrity & other.integrity,
        }
    }

    fn own_label(value: i32) -> Consent {
        let word = match value {
            0 => 0xAAAA_AAAA_AAAA_AAAA,
            1 => 0xCCCC_CCCC_CCCC_CCCC,
            2 => 0xF0F0_F0F0_F0F0_F0F0,
            3 => 0xFF00_FF00_FF00_FF00,
            4 => 0xFFFF_0000_FFFF_0000,
            5 => 0xFFFF_FFFF_0000_0000,
            _ => return Consent {
                secrecy: 0,
                integrity: u64::MAX,
            },
        };
        Consent {
            secrecy: word,
            integrity: word,
        }
    }
}

// Printed as in `[0&1 | 2 (0xf8f8f8f8f8f8f8f8); never (0x0000000000000000)]`: secrecy, then integrity, each as the smallest sets of parties whose consent suffices, in the order of their numbers n, and beside them the word. It is `always` where no consent is needed and `never` where none suffices.
impl fmt::Display for Consent {
    fn fmt<W: fmt::Write>(&self, f: &mut fmt::Formatter<W>) -> fmt::Result {
        let secrecy = Formula { word: self.secrecy };
        let integrity = Formula {
            word: self.integrity,
        };
        write!(
            f,
            "[{secrecy} ({:#018x}); {integrity} ({:#018x})]",
            self.secrecy, self.integrity
        )
    }
}
