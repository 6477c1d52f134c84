// Serving requests: one, or a whole list. Buffers are tested first, so that a list is served as a whole or not at all.
ghost use Rattle.std.specs.Prelude.{◌≡◌, ◌+◌, ◌<◌, ◌≤◌, length, None, Ok, slice_set};
ghost use Rattle.monitor.specs.Monitors.{state_of, SameLoans};
ghost use Rattle.monitor.specs.Steps.{step, standing_in};
ghost use Rattle.monitor.specs.Lists.{room as room_of, short_of, single, answered, answered_from, listed, serving, serving_each, serving_all};

use crate::requests::{Answer, Ask, Event, Request, ShortBuffer};
use labels::Label;
use sessions::{Refusal, Session, Standing};
use stores::Store;
use tables::{Place, TableRecord};

// The sessions, the table records and the store that requests are served on.
#[derive(Drop)]
pub struct Monitor<'a, L, S> {
    pub sessions: &'a mut [Session<L>],
    pub records: &'a [TableRecord<L>],
    pub store: &'a mut S,
}

impl<'a, L: Label, S: Store> Monitor<'a, L, S> {
    // One request is served into the first of the places, unless it asks for more than there are; then nothing changes.
    pub fn serve(
        &mut self,
        request: Request<L>,
        places: &mut [Place<L>],
    ) -> Result<Result<Answer<L>, Refusal<L>>, ShortBuffer>
        ensures served { single result (state_of S.Store.tables self.new) places.new ≡ serving L.Label.kind self.old.records.now (state_of S.Store.tables self.old) request places.old }
        ensures loans { SameLoans self.old self.new }
    {
        if request.ask.room() > places.len() {
            return Err(ShortBuffer::Places(0));
        }
        Ok(self.serve_from(request, places, 0))
    }

    // A list is served, each request's event kept at its number and each selection in a stretch of the places as long as it
    // asks for, one after another; unless too few events or places are lent, and then nothing changes.
    pub fn serve_all(
        &mut self,
        requests: &[Request<L>],
        events: &mut [Event<L>],
        places: &mut [Place<L>],
    ) -> Result<(), ShortBuffer>
        ensures served { listed result (state_of S.Store.tables self.new) events.new places.new ≡ serving_all L.Label.kind self.old.records.now (state_of S.Store.tables self.old) requests.now events.old places.old }
        ensures loans { SameLoans self.old self.new }
    {
        if requests.len() > events.len() {
            return Err(ShortBuffer::Events);
        }
        if let Some(request) = first_short(requests, places.len()) {
            return Err(ShortBuffer::Places(request));
        }
        self.serve_each(requests, events, places);
        Ok(())
    }

    fn standing(&self, session: usize) -> Option<Standing<L>>
        ensures { result ≡ standing_in (state_of S.Store.tables self.now) session }
    {
        self.sessions.get(session)?.standing()
    }

    // A request whose places are exactly those lent.
    #[tactic(auto, using(crate::proofs::Turns::session_turn, crate::proofs::Turns::reading_turn, crate::proofs::Turns::writing_turn))]
    fn serve_in(
        &mut self,
        request: Request<L>,
        places: &mut [Place<L>],
    ) -> Result<Answer<L>, Refusal<L>>
        requires { length places.old ≡ room_of request.ask }
        ensures served { single (Ok result) (state_of S.Store.tables self.new) places.new ≡ answered (step L.Label.kind self.old.records.now (state_of S.Store.tables self.old) request) places.old }
        ensures loans { SameLoans self.old self.new }
    {
        let Request { session, ask } = request;
        let sessions = &mut *self.sessions;
        let records = self.records;
        let store = &mut *self.store;
        match ask {
            Ask::Open(label, clearance) => {
                sessions::open(sessions, session, label, clearance)?;
                Ok(Answer::Done)
            }
            Ask::Raise(to) => {
                sessions::raise(sessions, session, to)?;
                Ok(Answer::Done)
            }
            Ask::LowerClearance(to) => {
                sessions::lower_clearance(sessions, session, to)?;
                Ok(Answer::Done)
            }
            Ask::Seal(value, under) => Ok(Answer::Sealed(sessions::seal(
                sessions, session, value, under,
            )?)),
            Ask::Unseal(sealed) => Ok(Answer::Value(sessions::unseal(sessions, session, sealed)?)),
            Ask::Select(table, predicate, _) => Ok(Answer::Filled(tables::select(
                sessions, records, store, session, table, predicate, places,
            )?)),
            Ask::Insert(table, first, second) => Ok(Answer::Key(tables::insert(
                sessions, records, store, session, table, first, second,
            )?)),
            Ask::Delete(table, predicate) => Ok(Answer::Changed(tables::delete(
                sessions, records, store, session, table, predicate,
            )?)),
            Ask::Update(table, predicate, first, second) => Ok(Answer::Changed(tables::update(
                sessions, records, store, session, table, predicate, first, second,
            )?)),
        }
    }

    // The same where its places are those from `start` on.
    fn serve_from(
        &mut self,
        request: Request<L>,
        places: &mut [Place<L>],
        start: usize,
    ) -> Result<Answer<L>, Refusal<L>>
        requires { start + room_of request.ask ≤ length places.old }
        ensures served { single (Ok result) (state_of S.Store.tables self.new) places.new ≡ answered_from start request (step L.Label.kind self.old.records.now (state_of S.Store.tables self.old) request) places.old }
        ensures loans { SameLoans self.old self.new }
    {
        let end = start + request.ask.room();
        self.serve_in(request, &mut places[start..end])
    }

    // Every request of a list is served, where events and places suffice.
    fn serve_each(
        &mut self,
        requests: &[Request<L>],
        events: &mut [Event<L>],
        places: &mut [Place<L>],
    )
        requires events { length requests.now ≤ length events.old }
        requires places { short_of 0 (length places.old) requests.now ≡ None }
        ensures served { listed (Ok tt) (state_of S.Store.tables self.new) events.new places.new ≡ serving_each L.Label.kind self.old.records.now (state_of S.Store.tables self.old) requests.now events.old places.old }
        ensures loans { SameLoans self.old self.new }
    {
        let mut start = 0;
        for (i, request) in requests.iter().enumerate() {
            let end = start + request.ask.room();
            let before = self.standing(request.session);
            let answer = self.serve_from(*request, places, start);
            let after = self.standing(request.session);
            put(
                events,
                i,
                Event {
                    before,
                    answer,
                    after,
                },
            );
            start = end;
        }
    }
}

// The first request that asks for more places than those before it leave.
fn first_short<L: Label>(requests: &[Request<L>], places: usize) -> Option<usize>
    ensures { result ≡ short_of 0 places requests.now }
{
    let mut left = places;
    for (i, request) in requests.iter().enumerate() {
        let room = request.ask.room();
        if room > left {
            return Some(i);
        }
        left -= room;
    }
    None
}

// Apart from the loop, where the size of an element, which depends on the label kind, is in the way of the proof.
fn put<T: Copy>(items: &mut [T], at: usize, item: T)
    requires { at < length items.old }
    ensures { items.new ≡ slice_set items.old at item }
{
    items[at] = item;
}
