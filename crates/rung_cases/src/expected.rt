// What a case expects, and playing cases.
ghost use Rattle.std.specs.Prelude.{◌≡◌};
ghost use Rattle.rung_cases.specs.Cases.{numbers_of, numbers_at, Came, Plays};
ghost use Rattle.rung_cases.specs.declared.requests.Request.{Request};

use crate::requests::Request;
use labels::{Rung, UnlawfulLabel};
use monitor::{Answer, ShortBuffer};
use sessions::{Refusal, Session, Standing};
use thiserror::Error;

// What is expected of a request. A refusal has its number in docs/MODEL.md, and not a name of the code, and, where one is
// returned, the label as left.
#[derive(Clone, Copy, PartialEq, Eq, Debug)]
pub enum Expected {
    Done,
    Sealed(u8, i32),
    Value(i32),
    Rows(usize),
    Key(u32),
    Changed(usize),
    Refused(u8, Option<u8>),
    FewEvents,
    FewPlaces(usize),
}

impl From<Answer<Rung>> for Expected {
    fn from(answer: Answer<Rung>) -> Expected {
        match answer {
            Answer::Done => Expected::Done,
            Answer::Sealed(sealed) => Expected::Sealed(
                sealed.label().number(),
                sealed.host_value(),
            ),
            Answer::Value(value) => Expected::Value(value),
            Answer::Filled(count) => Expected::Rows(count),
            Answer::Key(key) => Expected::Key(key),
            Answer::Changed(count) => Expected::Changed(count),
        }
    }
}

impl From<Refusal<Rung>> for Expected {
    fn from(refusal: Refusal<Rung>) -> Expected {
        Expected::Refused(refusal.number(), refusal.label().map(Rung::number))
    }
}

impl From<UnlawfulLabel> for Expected {
    fn from(unlawful: UnlawfulLabel) -> Expected {
        Expected::Refused(unlawful.number(), None)
    }
}

impl From<ShortBuffer> for Expected {
    fn from(short: ShortBuffer) -> Expected {
        match short {
            ShortBuffer::Events => Expected::FewEvents,
            ShortBuffer::Places(request) => Expected::FewPlaces(request),
        }
    }
}

impl<A: Into<Expected>, E: Into<Expected>> From<Result<A, E>> for Expected {
    fn from(answer: Result<A, E>) -> Expected {
        match answer {
            Ok(answer) => answer.into(),
            Err(fault) => fault.into(),
        }
    }
}

// What a request answers, and the label and the clearance of its session after it, none where that is closed or missing.
pub type Outcome = (Expected, Option<(u8, u8)>);

pub type Case = (Request, Expected, Option<(u8, u8)>);

// The label and the clearance of an open session.
pub fn numbers(standing: Standing<Rung>) -> (u8, u8)
    ensures { result ≡ numbers_of standing }
{
    (standing.label().number(), standing.clearance().number())
}

pub fn standing_of(sessions: &[Session<Rung>], session: usize) -> Option<(u8, u8)>
    ensures { result ≡ numbers_at sessions.now session }
{
    sessions.get(session)?.standing().map(numbers)
}

// The first case, counted from 0, that comes out otherwise than expected.
#[derive(Clone, Copy, PartialEq, Eq, Debug, Error)]
#[error("case {number}, {request}: expected {expected:?}, came {came:?}")]
pub struct Mismatch {
    pub number: usize,
    pub request: Request,
    pub expected: Outcome,
    pub came: Outcome,
}

// What requests are asked of. A trait and no closure, so that playing asks nothing of its callers.
pub trait Server {
    // How a request may leave it, and with what outcome. Where an impl says nothing of it, all may be.
    ghost answers: { Self → Request → Came → Self → Type 0 } = { λ _ _ _ _. Unit {0} };

    fn answer(&mut self, request: Request) -> Outcome
        ensures { answers self.old request result self.new };
}

// Asks for what each case asks, one after another, up to the first that comes out otherwise.
pub fn play<S: Server>(cases: &[Case], server: &mut S) -> Result<(), Mismatch>
    ensures { Plays S.Server.answers server.old cases.now result }
{
    for (number, (request, answer, standing)) in cases.iter().enumerate() {
        let expected = (*answer, *standing);
        let came = server.answer(*request);
        if came != expected {
            return Err(Mismatch {
                number,
                request: *request,
                expected,
                came,
            });
        }
    }
    Ok(())
}
