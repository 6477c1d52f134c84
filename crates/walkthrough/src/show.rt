// Answers and standings in words.
use crate::play::Fault;
use labels::Rung;
use monitor::Answer;
use rung_cases::Ask;
use sessions::Refusal;
use std::fmt;
use wording::show;

// What a request that asks for this is answered.
#[derive(Clone, Copy)]
pub struct Reply(pub Ask, pub Result<Answer<Rung>, Fault>);

impl fmt::Display for Reply {
    fn fmt<W: fmt::Write>(&self, f: &mut fmt::Formatter<W>) -> fmt::Result {
        match self {
            Reply(Ask::Update(..), Ok(Answer::Changed(count))) => write!(f, "updated: {count}"),
            Reply(_, Ok(Answer::Changed(count))) => write!(f, "deleted: {count}"),
            Reply(_, Ok(answer)) => {
                let answer: Result<Answer<Rung>, Refusal<Rung>> = Ok(*answer);
                write!(f, "{}", show::<Rung, _>(answer))
            }
            Reply(_, Err(fault)) => match fault.number() {
                Some(number) => write!(f, "refused ({number}): {fault}"),
                None => write!(f, "not served: {fault}"),
            },
        }
    }
}

// A session's label and clearance, or a minus sign for each where it is closed or missing.
#[derive(Clone, Copy)]
pub struct Standing(pub Option<(u8, u8)>);

impl fmt::Display for Standing {
    fn fmt<W: fmt::Write>(&self, f: &mut fmt::Formatter<W>) -> fmt::Result {
        match self.0 {
            Some((label, clearance)) => write!(f, "{label:>5}  {clearance:>9}"),
            None => write!(f, "{:>5}  {:>9}", "-", "-"),
        }
    }
}
