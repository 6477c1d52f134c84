// Requests as a person writes them, with labels as numbers.
ghost use Rattle.std.specs.Prelude.{◌≡◌};
ghost use Rattle.rung_cases.specs.Asked.{sealed_under, ask_of, request_of};

use labels::{Rung, UnlawfulLabel};
use sessions::Sealed;
use std::fmt;
use tables::Predicate;
use wording::Ranges;

// What is asked of a session: opening from a label to a clearance, raising to a label, lowering the clearance to a label,
// sealing a value under a label, unsealing what a label seals; and of a table of a number: selecting with so many places,
// inserting two sealed values, deleting, updating to two sealed values. A sealed value is its label and its value. It is not the
// monitor's own type over numbers, since what that holds is sealed under a label.
#[derive(Clone, Copy, PartialEq, Eq, Debug)]
pub enum Ask {
    Open(u64, u64),
    Raise(u64),
    Lower(u64),
    Seal(i32, u64),
    Unseal(u64, i32),
    Select(usize, Predicate, usize),
    Insert(usize, (u64, i32), (u64, i32)),
    Delete(usize, Predicate),
    Update(usize, Predicate, (u64, i32), (u64, i32)),
}

// The number of a session, and what is asked of it.
#[derive(Clone, Copy, PartialEq, Eq, Debug)]
pub struct Request(pub usize, pub Ask);

// A value sealed under the label of a number, where the number makes one.
pub fn sealed(label: u64, value: i32) -> Result<Sealed<Rung>, UnlawfulLabel>
    ensures { result ≡ sealed_under label value }
{
    Ok(Sealed::new(Rung::new(label)?, value))
}

impl TryFrom<Ask> for monitor::Ask<Rung> {
    type Error = UnlawfulLabel;

    ghost try_from_gives = { λ ask result. result ≡ ask_of ask };

    fn try_from(ask: Ask) -> Result<monitor::Ask<Rung>, UnlawfulLabel> {
        Ok(match ask {
            Ask::Open(label, clearance) => {
                monitor::Ask::Open(Rung::new(label)?, Rung::new(clearance)?)
            }
            Ask::Raise(to) => monitor::Ask::Raise(Rung::new(to)?),
            Ask::Lower(to) => monitor::Ask::LowerClearance(Rung::new(to)?),
            Ask::Seal(value, under) => monitor::Ask::Seal(value, Rung::new(under)?),
            Ask::Unseal(label, value) => monitor::Ask::Unseal(sealed(label, value)?),
            Ask::Select(table, predicate, room) => monitor::Ask::Select(table, predicate, room),
            Ask::Insert(table, (a, first), (b, second)) => {
                monitor::Ask::Insert(table, sealed(a, first)?, sealed(b, second)?)
            }
            Ask::Delete(table, predicate) => monitor::Ask::Delete(table, predicate),
            Ask::Update(table, predicate, (a, first), (b, second)) => {
                monitor::Ask::Update(table, predicate, sealed(a, first)?, sealed(b, second)?)
            }
        })
    }
}

impl TryFrom<Request> for monitor::Request<Rung> {
    type Error = UnlawfulLabel;

    ghost try_from_gives = { λ request result. result ≡ request_of request };

    fn try_from(request: Request) -> Result<monitor::Request<Rung>, UnlawfulLabel> {
        let Request(session, ask) = request;
        let ask = ask.try_into()?;
        Ok(monitor::Request { session, ask })
    }
}

impl fmt::Display for Request {
    fn fmt<W: fmt::Write>(&self, f: &mut fmt::Formatter<W>) -> fmt::Result {
        let Request(session, ask) = *self;
        match ask {
            Ask::Open(label, clearance) => {
                write!(f, "open session {session} from {label} to {clearance}")
            }
            Ask::Raise(to) => write!(f, "session {session} raises its label to {to}"),
            Ask::Lower(to) => write!(f, "session {session} lowers its clearance to {to}"),
            Ask::Seal(value, under) => write!(f, "session {session} seals {value} under {under}"),
            Ask::Unseal(label, value) => write!(f, "session {session} unseals {label}:{value}"),
            Ask::Select(table, predicate, room) => {
                let ranges = Ranges(predicate);
                write!(
                    f,
                    "session {session} selects in {table}{ranges}, places {room}"
                )
            }
            Ask::Insert(table, (a, first), (b, second)) => {
                write!(
                    f,
                    "session {session} inserts in {table}: {a}:{first}, {b}:{second}"
                )
            }
            Ask::Delete(table, predicate) => {
                let ranges = Ranges(predicate);
                write!(f, "session {session} deletes in {table}{ranges}")
            }
            Ask::Update(table, predicate, (a, first), (b, second)) => {
                let ranges = Ranges(predicate);
                write!(
                    f,
                    "session {session} updates in {table}{ranges}: {a}:{first}, {b}:{second}"
                )
            }
        }
    }
}
