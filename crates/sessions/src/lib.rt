// Sessions, whose label floats up under a clearance, and the five requests on them. Nothing here names a label kind.
#![tactic(auto)]

ghost use Rattle.std.specs.Prelude.{◌≡◌};
ghost use Rattle.sessions.specs.Refusals.{number_of, label_of};
ghost use Rattle.sessions.specs.Steps.{closed_session, sealed_value, outcome, opening, raising, lowering, sealing, unsealing, served, on_session};

use labels::Label;
use std::fmt;
use thiserror::Error;

// A value under a label. Anyone may make one, since requests carry them. None is compared by `==`, and `{:?}` leaves its value
// out, since either would tell the value to whoever holds it.
#[derive(Clone, Copy)]
pub struct Sealed<L> {
    label: L,
    value: i32,
}

impl<L: fmt::Debug> fmt::Debug for Sealed<L> {
    fn fmt<W: fmt::Write>(&self, f: &mut fmt::Formatter<W>) -> fmt::Result {
        f.debug_struct("Sealed")
            .field("label", &self.label)
            .finish_non_exhaustive()
    }
}

impl<L: Label> Sealed<L> {
    pub fn new(label: L, value: i32) -> Self
        ensures { result ≡ sealed_value label value }
    {
        Sealed { label, value }
    }

    pub fn label(self) -> L
        ensures { result ≡ self.label }
    {
        self.label
    }

    // The value with no session asked: for the host alone, who serves requests and keeps the records. Everyone else unseals.
    pub fn host_value(self) -> i32
        ensures { result ≡ self.value }
    {
        self.value
    }
}

// The current label and the clearance of an open session.
#[derive(Clone, Copy, PartialEq, Eq, Debug)]
pub struct Standing<L> {
    label: L,
    clearance: L,
}

impl<L: Label> Standing<L> {
    pub fn label(self) -> L
        ensures { result ≡ self.label }
    {
        self.label
    }

    pub fn clearance(self) -> L
        ensures { result ≡ self.clearance }
    {
        self.clearance
    }
}

// Why a request is turned down, with the session's label as it is left where that is returned.
#[derive(Clone, Copy, PartialEq, Eq, Debug, Error)]
pub enum Refusal<L> {
    #[error("no session of that number")]
    NoSession,
    #[error("the session is closed")]
    SessionClosed,
    #[error("no table of that number")]
    NoTable(L),
    #[error("the label of the first field does not flow to the label of the table")]
    FirstAboveTable(L),
    #[error("out of the range from label to clearance")]
    OutOfRange,
    #[error("the label does not flow to what would be written")]
    LabelAboveTarget(L),
    #[error("the first value is sealed above its field")]
    FirstAboveField(L),
    #[error("the label would no longer flow to the clearance")]
    AboveClearance(L),
    #[error("the label joined with what the query looks at would no longer flow to the clearance")]
    QueryAboveClearance(L),
    #[error("what the query looks at does not flow to what would be written")]
    QueryAboveTarget(L),
    #[error("the second value is sealed above its field")]
    SecondAboveField(L),
    #[error("the table is at its limit")]
    TableFull(L),
    #[error("the keys of the table are used up")]
    KeysSpent(L),
    #[error("the matching rows outnumber the places")]
    TooFewPlaces(L),
}

impl<L: Label> Refusal<L> {
    pub fn number(self) -> u8
        ensures { result ≡ number_of self }
    {
        match self {
            Refusal::NoSession => 1,
            Refusal::SessionClosed => 2,
            Refusal::NoTable(_) => 3,
            Refusal::FirstAboveTable(_) => 4,
            Refusal::OutOfRange => 5,
            Refusal::LabelAboveTarget(_) => 6,
            Refusal::FirstAboveField(_) => 7,
            Refusal::AboveClearance(_) => 8,
            Refusal::QueryAboveClearance(_) => 9,
            Refusal::QueryAboveTarget(_) => 10,
            Refusal::SecondAboveField(_) => 11,
            Refusal::TableFull(_) => 12,
            Refusal::KeysSpent(_) => 13,
            Refusal::TooFewPlaces(_) => 14,
        }
    }

    // The session's label as it is left, where that is returned.
    pub fn label(self) -> Option<L>
        ensures { result ≡ label_of self }
    {
        match self {
            Refusal::NoSession | Refusal::SessionClosed | Refusal::OutOfRange => None,
            Refusal::NoTable(label)
            | Refusal::FirstAboveTable(label)
            | Refusal::LabelAboveTarget(label)
            | Refusal::FirstAboveField(label)
            | Refusal::AboveClearance(label)
            | Refusal::QueryAboveClearance(label)
            | Refusal::QueryAboveTarget(label)
            | Refusal::SecondAboveField(label)
            | Refusal::TableFull(label)
            | Refusal::KeysSpent(label)
            | Refusal::TooFewPlaces(label) => Some(label),
        }
    }
}

// A session: closed, or open with a label and a clearance. It is not `Copy`, so an open one is never doubled.
#[derive(PartialEq, Eq, Debug, Drop)]
pub struct Session<L> {
    standing: Option<Standing<L>>,
}

impl<L: Label> Session<L> {
    pub fn closed() -> Self
        ensures { result ≡ closed_session }
    {
        Session { standing: None }
    }

    pub fn standing(&self) -> Option<Standing<L>>
        ensures { result ≡ self.now.standing }
    {
        self.standing
    }

    pub fn open(&mut self, label: L, clearance: L) -> Result<(), Refusal<L>>
        ensures { outcome result self.new ≡ opening L.Label.kind label clearance self.old }
    {
        if !label.flows_to(clearance) {
            return Err(Refusal::OutOfRange);
        }
        self.standing = Some(Standing { label, clearance });
        Ok(())
    }

    pub fn raise(&mut self, to: L) -> Result<(), Refusal<L>>
        ensures { outcome result self.new ≡ raising L.Label.kind to self.old }
    {
        let Some(Standing { label, clearance }) = self.standing else {
            return Err(Refusal::SessionClosed);
        };
        let joined = label.join(to);
        if !joined.flows_to(clearance) {
            return Err(Refusal::AboveClearance(label));
        }
        self.standing = Some(Standing {
            label: joined,
            clearance,
        });
        Ok(())
    }

    pub fn lower_clearance(&mut self, to: L) -> Result<(), Refusal<L>>
        ensures { outcome result self.new ≡ lowering L.Label.kind to self.old }
    {
        let Some(Standing { label, clearance }) = self.standing else {
            return Err(Refusal::SessionClosed);
        };
        if !label.flows_to(to) || !to.flows_to(clearance) {
            return Err(Refusal::OutOfRange);
        }
        self.standing = Some(Standing {
            label,
            clearance: to,
        });
        Ok(())
    }

    pub fn seal(&self, value: i32, under: L) -> Result<Sealed<L>, Refusal<L>>
        ensures { outcome result self.now ≡ sealing L.Label.kind value under self.now }
    {
        let Some(Standing { label, clearance }) = self.standing else {
            return Err(Refusal::SessionClosed);
        };
        if !label.flows_to(under) || !under.flows_to(clearance) {
            return Err(Refusal::OutOfRange);
        }
        Ok(Sealed {
            label: under,
            value,
        })
    }

    pub fn unseal(&mut self, sealed: Sealed<L>) -> Result<i32, Refusal<L>>
        ensures { outcome result self.new ≡ unsealing L.Label.kind sealed self.old }
    {
        self.raise(sealed.label)?;
        Ok(sealed.value)
    }
}

// The five requests on a list look their session up by index: what a slice holds after a `get_mut` is not known to a proof.
// Sealing changes none, and does as the others do.

// The host opens a session, whether or not it was open.
pub fn open<L: Label>(
    sessions: &mut [Session<L>],
    session: usize,
    label: L,
    clearance: L,
) -> Result<(), Refusal<L>>
    ensures { served result sessions.new ≡ on_session sessions.old session (opening L.Label.kind label clearance) }
{
    if session >= sessions.len() {
        return Err(Refusal::NoSession);
    }
    sessions[session].open(label, clearance)
}

pub fn raise<L: Label>(sessions: &mut [Session<L>], session: usize, to: L) -> Result<(), Refusal<L>>
    ensures { served result sessions.new ≡ on_session sessions.old session (raising L.Label.kind to) }
{
    if session >= sessions.len() {
        return Err(Refusal::NoSession);
    }
    sessions[session].raise(to)
}

pub fn lower_clearance<L: Label>(
    sessions: &mut [Session<L>],
    session: usize,
    to: L,
) -> Result<(), Refusal<L>>
    ensures { served result sessions.new ≡ on_session sessions.old session (lowering L.Label.kind to) }
{
    if session >= sessions.len() {
        return Err(Refusal::NoSession);
    }
    sessions[session].lower_clearance(to)
}

pub fn seal<L: Label>(
    sessions: &[Session<L>],
    session: usize,
    value: i32,
    under: L,
) -> Result<Sealed<L>, Refusal<L>>
    ensures { served result sessions.now ≡ on_session sessions.now session (sealing L.Label.kind value under) }
{
    if session >= sessions.len() {
        return Err(Refusal::NoSession);
    }
    sessions[session].seal(value, under)
}

pub fn unseal<L: Label>(
    sessions: &mut [Session<L>],
    session: usize,
    sealed: Sealed<L>,
) -> Result<i32, Refusal<L>>
    ensures { served result sessions.new ≡ on_session sessions.old session (unsealing L.Label.kind sealed) }
{
    if session >= sessions.len() {
        return Err(Refusal::NoSession);
    }
    sessions[session].unseal(sealed)
}
