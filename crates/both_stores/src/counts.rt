// How often each kind of request and each refusal came.
use labels::Rung;
use monitor::{Answer, Ask, Event, Request};
use sessions::Refusal;
use std::fmt;

#[derive(Clone, Copy, PartialEq, Eq, Debug)]
enum Kind {
    Open,
    Raise,
    Lower,
    Seal,
    Unseal,
    Select,
    Insert,
    Delete,
    Update,
}

const KINDS: [Kind; 9] = [
    Kind::Open,
    Kind::Raise,
    Kind::Lower,
    Kind::Seal,
    Kind::Unseal,
    Kind::Select,
    Kind::Insert,
    Kind::Delete,
    Kind::Update,
];

impl From<Ask<Rung>> for Kind {
    fn from(ask: Ask<Rung>) -> Kind {
        match ask {
            Ask::Open(..) => Kind::Open,
            Ask::Raise(..) => Kind::Raise,
            Ask::LowerClearance(..) => Kind::Lower,
            Ask::Seal(..) => Kind::Seal,
            Ask::Unseal(..) => Kind::Unseal,
            Ask::Select(..) => Kind::Select,
            Ask::Insert(..) => Kind::Insert,
            Ask::Delete(..) => Kind::Delete,
            Ask::Update(..) => Kind::Update,
        }
    }
}

impl fmt::Display for Kind {
    fn fmt<W: fmt::Write>(&self, f: &mut fmt::Formatter<W>) -> fmt::Result {
        f.write_str(match self {
            Kind::Open => "open",
            Kind::Raise => "raise",
            Kind::Lower => "lower",
            Kind::Seal => "seal",
            Kind::Unseal => "unseal",
            Kind::Select => "select",
            Kind::Insert => "insert",
            Kind::Delete => "delete",
            Kind::Update => "update",
        })
    }
}

// Kinds are counted in their order, and refusals by their numbers, at 0 what was not refused, since so they are printed. Rows are
// those inserted, deleted or updated, and selected.
#[derive(Default, Drop)]
pub struct Counts {
    lists: u32,
    requests: u32,
    kinds: [u32; KINDS.len()],
    refusals: [u32; 15],
    inserted: usize,
    changed: usize,
    selected: usize,
}

impl Counts {
    // A list that was served.
    pub fn count(&mut self, requests: &[Request<Rung>], events: &[Event<Rung>]) {
        self.lists = self.lists.saturating_add(1);
        for (request, event) in requests.iter().zip(events) {
            self.requests = self.requests.saturating_add(1);
            bump(&mut self.kinds, Kind::from(request.ask) as usize);
            bump(
                &mut self.refusals,
                event.answer.err().map_or(0, refusal_number),
            );
            match event.answer {
                Ok(Answer::Key(_)) => self.inserted = self.inserted.saturating_add(1),
                Ok(Answer::Changed(rows)) => self.changed = self.changed.saturating_add(rows),
                Ok(Answer::Filled(rows)) => self.selected = self.selected.saturating_add(rows),
                _ => {}
            }
        }
    }
}

fn refusal_number(refusal: Refusal<Rung>) -> usize {
    usize::from(refusal.number())
}

fn bump(counts: &mut [u32], at: usize) {
    if let Some(count) = counts.get_mut(at) {
        *count = count.saturating_add(1);
    }
}

impl fmt::Display for Counts {
    fn fmt<W: fmt::Write>(&self, f: &mut fmt::Formatter<W>) -> fmt::Result {
        write!(f, "{} lists; {} requests", self.lists, self.requests)?;
        for (kind, count) in KINDS.iter().zip(&self.kinds) {
            write!(f, "; {kind} {count}")?;
        }
        write!(f, "\nBy the number of the refusal, 0 where there is none:")?;
        for (number, count) in self.refusals.iter().enumerate() {
            write!(f, " ({number}) {count}")?;
        }
        let Counts {
            inserted,
            changed,
            selected,
            ..
        } = self;
        write!(
            f,
            "\nRows inserted {inserted}, deleted or updated {changed}, selected {selected}"
        )
    }
}
