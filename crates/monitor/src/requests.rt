// What may be asked of a monitor, and what it answers.
ghost use Rattle.std.specs.Prelude.{◌≡◌};
ghost use Rattle.monitor.specs.Lists.{room as room_of};

use labels::Label;
use sessions::{Refusal, Sealed, Standing};
use tables::Predicate;
use thiserror::Error;

// What is asked of a session: opening from a label to a clearance, raising to a label, lowering the clearance to a label,
// sealing a value under a label, unsealing; and, on the table of a number, selecting by a predicate into so many places,
// inserting a first and a second value, deleting by a predicate, updating by a predicate to a first and a second value.
#[derive(Clone, Copy, Debug)]
pub enum Ask<L> {
    Open(L, L),
    Raise(L),
    LowerClearance(L),
    Seal(i32, L),
    Unseal(Sealed<L>),
    Select(usize, Predicate, usize),
    Insert(usize, Sealed<L>, Sealed<L>),
    Delete(usize, Predicate),
    Update(usize, Predicate, Sealed<L>, Sealed<L>),
}

impl<L: Label> Ask<L> {
    // How many places are asked for.
    pub fn room(self) -> usize
        ensures { result ≡ room_of self }
    {
        match self {
            Ask::Select(_, _, places) => places,
            _ => 0,
        }
    }
}

// The number of a session, and what is asked of it.
#[derive(Clone, Copy, Debug)]
pub struct Request<L> {
    pub session: usize,
    pub ask: Ask<L>,
}

// What a request is answered that is not turned down: that it is done, a sealed value, a value that was unsealed, how many
// places a selection filled, the key of the row inserted, how many rows were deleted or updated.
#[derive(Clone, Copy, Debug)]
pub enum Answer<L> {
    Done,
    Sealed(Sealed<L>),
    Value(i32),
    Filled(usize),
    Key(u32),
    Changed(usize),
}

// What is kept of a request that was served: its answer or why it is turned down, and how the session of its number stood
// before it and stands after it, none where that is closed or missing. The answer comes first, since fields lie in their order
// and the two others are small.
#[derive(Clone, Copy, Debug)]
pub struct Event<L> {
    pub answer: Result<Answer<L>, Refusal<L>>,
    pub before: Option<Standing<L>>,
    pub after: Option<Standing<L>>,
}

// Why requests are not served at all: fewer events are lent than there are requests, or the places that are left do not
// suffice for the request of this number, counted from 0.
#[derive(Clone, Copy, PartialEq, Eq, Debug, Error)]
pub enum ShortBuffer {
    #[error("fewer events are lent than there are requests")]
    Events,
    #[error("request {0} asks for more places than are left")]
    Places(usize),
}
