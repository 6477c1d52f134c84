// Label kinds: what a label kind promises; rung labels and consent labels.
#![tactic(auto)]

ghost use Rattle.std.specs.Prelude.{◌≡◌, true};
ghost use Rattle.labels.specs.Kind.{Kind, Lattice, Keeps};
ghost use Rattle.labels.specs.Rung.{rungs, Lawful, made};
ghost use Rattle.std.proofs.Common.{rules};

mod bits;
mod consent;
#[cfg(test)]
mod consent_tests;
mod formula;
mod monotone;
#[cfg(test)]
mod tests;

pub use consent::Consent;
use std::fmt;
use thiserror::Error;

// A kind of label: a lattice whose labels say who may learn of a value.
pub trait Label: Copy {
    ghost kind: { Kind Self };

    ghost lawful: { Self → Type 0 };

    // Nothing to run: that the lowest label flows to each label that a program holds.
    fn above_lowest(self)
        ensures { kind.flows kind.lowest self ≡ true };

    fn lowest() -> Self
        ensures { result ≡ kind.lowest };

    fn flows_to(self, other: Self) -> bool
        ensures { result ≡ kind.flows self other };

    fn join(self, other: Self) -> Self
        ensures { result ≡ kind.join self other };

    fn meet(self, other: Self) -> Self
        ensures { result ≡ kind.meet self other };

    // The own label of a value.
    fn own_label(value: i32) -> Self
        ensures { result ≡ kind.own value };

    // What each kind must prove: laws, since they stand below the last function.
    ghost lattice: { Lattice kind };

    ghost keeps_lawful: { Keeps kind lawful };
}

// The numbers given for a label make none.
#[derive(Clone, Copy, PartialEq, Eq, Debug, Error)]
#[error("label numbers unlawful")]
pub struct UnlawfulLabel;

impl UnlawfulLabel {
    pub fn number(self) -> u8
        ensures { result ≡ 15 }
    {
        15
    }
}

// A rung label: a number from 0 to 7, which flows to every number that is not below it.
#[derive(Clone, Copy, PartialEq, Eq, Debug)]
pub struct Rung {
    number: u8,
}

impl Rung {
    // The rung of a number from 0 to 7.
    pub fn new(number: u64) -> Result<Rung, UnlawfulLabel>
        ensures { result ≡ made number }
    {
        if number <= 7 {
            Ok(Rung {
                number: number as u8,
            })
        } else {
            Err(UnlawfulLabel)
        }
    }

    pub fn number(self) -> u8
        ensures { result ≡ self.number }
    {
        self.number
    }
}

impl Label for Rung {
    ghost kind = { rungs };

    ghost lawful = { Lawful };

    ghost lattice = { Prim.search rules };

    ghost keeps_lawful = { Prim.search rules };

    fn above_lowest(self) {}

    fn lowest() -> Rung {
        Rung { number: 0 }
    }

    fn flows_to(self, other: Rung) -> bool {
        self.number <= other.number
    }

    fn join(self, other: Rung) -> Rung {
        Rung {
            number: self.number.max(other.number),
        }
    }

    fn meet(self, other: Rung) -> Rung {
        Rung {
            number: self.number.min(other.number),
        }
    }

    fn own_label(value: i32) -> Rung {
        match value {
            0..=7 => Rung {
                number: value as u8,
            },
            _ => Rung { number: 7 },
        }
    }
}

impl fmt::Display for Rung {
    fn fmt<W: fmt::Write>(&self, f: &mut fmt::Formatter<W>) -> fmt::Result {
        let number = self.number;
        write!(f, "{number}")
    }
}
