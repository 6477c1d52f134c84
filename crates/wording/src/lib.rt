// Requests, answers and what sessions and rows hold, in words for a person. Nothing here names a label kind.
#![tactic(auto)]

ghost use Rattle.std.specs.Prelude.{◌≡◌};

use labels::Label;
use monitor::{Answer, Ask, Request};
use sessions::{Refusal, Sealed, Standing};
use std::fmt;
use tables::{Place, Predicate, Range};

// What is printed of an item, with a star for each value that the observer, if there is one, does not see.
#[derive(Clone, Copy)]
pub struct Shown<L, T> {
    observer: Option<L>,
    item: T,
}

pub fn show<L, T>(item: T) -> Shown<L, T>
    ensures { result ≡ record { observer = None; item = item } }
{
    Shown {
        observer: None,
        item,
    }
}

pub fn show_to<L, T>(observer: L, item: T) -> Shown<L, T>
    ensures { result ≡ record { observer = Some observer; item = item } }
{
    Shown {
        observer: Some(observer),
        item,
    }
}

impl<L: Label, T> Shown<L, T> {
    // A part of the item, to the same observer.
    fn part<U>(&self, item: U) -> Shown<L, U> {
        Shown {
            observer: self.observer,
            item,
        }
    }
}

// The ranges of a predicate that are present, with a comma before each.
#[derive(Clone, Copy)]
pub struct Ranges(pub Predicate);

impl fmt::Display for Ranges {
    fn fmt<W: fmt::Write>(&self, f: &mut fmt::Formatter<W>) -> fmt::Result {
        let Predicate { key, first, second } = self.0;
        for (field, range) in [("key", key), ("first", first), ("second", second)] {
            if let Some(Range { low, high }) = range {
                write!(f, ", {field} {low} to {high}")?;
            }
        }
        Ok(())
    }
}

// The label, a colon and the value or a star.
impl<L: Label + fmt::Display> fmt::Display for Shown<L, Sealed<L>> {
    fn fmt<W: fmt::Write>(&self, f: &mut fmt::Formatter<W>) -> fmt::Result {
        let label = self.item.label();
        match self.observer {
            Some(observer) if !label.flows_to(observer) => write!(f, "{label}:*"),
            _ => write!(f, "{label}:{}", self.item.host_value()),
        }
    }
}

impl<L: Label + fmt::Display> fmt::Display for Shown<L, Request<L>> {
    fn fmt<W: fmt::Write>(&self, f: &mut fmt::Formatter<W>) -> fmt::Result {
        let Request { session, ask } = self.item;
        match ask {
            Ask::Open(label, clearance) => {
                write!(f, "open session {session}, {label} to {clearance}")
            }
            Ask::Raise(to) => write!(f, "session {session} raises its label to {to}"),
            Ask::LowerClearance(to) => write!(f, "session {session} lowers its clearance to {to}"),
            Ask::Seal(value, under) => write!(f, "session {session} seals {value} under {under}"),
            Ask::Unseal(sealed) => write!(f, "session {session} unseals {}", self.part(sealed)),
            Ask::Select(table, predicate, room) => write!(
                f,
                "session {session} selects {table}{}, {room} places",
                Ranges(predicate)
            ),
            Ask::Insert(table, first, second) => write!(
                f,
                "session {session} inserts in {table}: {}, {}",
                self.part(first),
                self.part(second)
            ),
            Ask::Delete(table, predicate) => write!(
                f,
                "session {session} deletes in {table}{}",
                Ranges(predicate)
            ),
            Ask::Update(table, predicate, first, second) => write!(
                f,
                "session {session} updates {table}{}: {}, {}",
                Ranges(predicate),
                self.part(first),
                self.part(second)
            ),
        }
    }
}

impl<L: Label + fmt::Display> fmt::Display for Shown<L, Result<Answer<L>, Refusal<L>>> {
    fn fmt<W: fmt::Write>(&self, f: &mut fmt::Formatter<W>) -> fmt::Result {
        match self.item {
            Ok(Answer::Done) => f.write_str("done"),
            Ok(Answer::Sealed(sealed)) => write!(f, "{}", self.part(sealed)),
            Ok(Answer::Value(value)) => write!(f, "{value}"),
            Ok(Answer::Filled(count)) => write!(f, "rows: {count}"),
            Ok(Answer::Key(key)) => write!(f, "key {key}"),
            Ok(Answer::Changed(count)) => write!(f, "rows changed: {count}"),
            Err(refusal) => write!(f, "refused ({}): {refusal}", refusal.number()),
        }
    }
}

// A row as it was answered.
impl<L: Label + fmt::Display> fmt::Display for Shown<L, Place<L>> {
    fn fmt<W: fmt::Write>(&self, f: &mut fmt::Formatter<W>) -> fmt::Result {
        let Place { key, first, second } = self.item;
        write!(f, "key {key}, {}, {}", self.part(first), self.part(second))
    }
}

// The label of a session, or a minus sign where none is open.
impl<L: Label + fmt::Display> fmt::Display for Shown<L, Option<Standing<L>>> {
    fn fmt<W: fmt::Write>(&self, f: &mut fmt::Formatter<W>) -> fmt::Result {
        match self.item {
            None => f.write_str("-"),
            Some(standing) => write!(f, "{}", standing.label()),
        }
    }
}
