// Serving requests by the calls of the sessions and of the tables themselves, as this program is there to do.
use labels::{Rung, UnlawfulLabel};
use monitor::{Answer, Ask, ShortBuffer};
use packed::Packed;
use rung_cases::Request;
use sessions::{Refusal, Session};
use tables::{Place, Predicate, TableRecord};
use thiserror::Error;

// Why a request has no answer: a number in it makes no label, it is turned down, or it asks for more places than there are.
#[derive(Clone, Copy, PartialEq, Eq, Debug, Error)]
pub enum Fault {
    #[error(transparent)]
    Label(#[from] UnlawfulLabel),
    #[error(transparent)]
    Request(#[from] Refusal<Rung>),
    #[error(transparent)]
    Places(#[from] ShortBuffer),
}

impl Fault {
    // The number of the refusal, none where the request is not served at all.
    pub fn number(self) -> Option<u8> {
        match self {
            Fault::Label(unlawful) => Some(unlawful.number()),
            Fault::Request(refusal) => Some(refusal.number()),
            Fault::Places(_) => None,
        }
    }
}

// The host's side: the sessions, the table records, the store, and places for what selections answer.
#[derive(Drop)]
pub struct Host<'a> {
    pub sessions: &'a mut [Session<Rung>],
    pub records: &'a [TableRecord<Rung>],
    pub store: Packed<'a>,
    pub places: &'a mut [Place<Rung>],
}

impl Host<'_> {
    pub fn serve(&mut self, request: Request) -> Result<Answer<Rung>, Fault> {
        let monitor::Request { session, ask } = request.try_into()?;
        Ok(match ask {
            Ask::Open(label, clearance) => {
                sessions::open(self.sessions, session, label, clearance)?;
                Answer::Done
            }
            Ask::Raise(to) => {
                sessions::raise(self.sessions, session, to)?;
                Answer::Done
            }
            Ask::LowerClearance(to) => {
                sessions::lower_clearance(self.sessions, session, to)?;
                Answer::Done
            }
            Ask::Seal(value, under) => Answer::Sealed(sessions::seal(
                self.sessions,
                session,
                value,
                under,
            )?),
            Ask::Unseal(sealed) => Answer::Value(sessions::unseal(self.sessions, session, sealed)?),
            Ask::Select(table, predicate, room) => {
                Answer::Filled(self.select(session, table, predicate, room)?)
            }
            Ask::Insert(table, first, second) => Answer::Key(tables::insert(
                self.sessions,
                self.records,
                &mut self.store,
                session,
                table,
                first,
                second,
            )?),
            Ask::Delete(table, predicate) => Answer::Changed(tables::delete(
                self.sessions,
                self.records,
                &mut self.store,
                session,
                table,
                predicate,
            )?),
            Ask::Update(table, predicate, first, second) => Answer::Changed(tables::update(
                self.sessions,
                self.records,
                &mut self.store,
                session,
                table,
                predicate,
                first,
                second,
            )?),
        })
    }

    // The first `room` places are lent.
    fn select(
        &mut self,
        session: usize,
        table: usize,
        predicate: Predicate,
        room: usize,
    ) -> Result<usize, Fault> {
        let places = self.places.get_mut(..room).ok_or(ShortBuffer::Places(0))?;
        Ok(tables::select(
            self.sessions,
            self.records,
            &self.store,
            session,
            table,
            predicate,
            places,
        )?)
    }
}
