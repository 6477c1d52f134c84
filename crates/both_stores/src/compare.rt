// Where two runs of one list differ first.
use labels::Rung;
use monitor::{Event, Request};
use rung_cases::{Expected, place_numbers};
use sessions::Session;
use std::fmt;
use stores::Store;
use tables::Place;
use thiserror::Error;

// As many events and places are lent to every list, so that some belong to no request: those have to stay as they were.
pub const MOST_REQUESTS: usize = 40;

pub const PLACES: usize = 160;

// What is left of a list that was served.
#[derive(Drop)]
pub struct Run<S> {
    pub store: S,
    pub sessions: [Session<Rung>; 3],
    pub events: [Event<Rung>; MOST_REQUESTS],
    pub places: [Place<Rung>; PLACES],
}

// A request, counted from 1, by its event or a place lent to it; or a place that no request was lent, a session or a table.
#[derive(Clone, Copy, PartialEq, Eq, Debug)]
pub enum Spot {
    Request(usize),
    Place(usize),
    Session(usize),
    Table(usize),
}

impl fmt::Display for Spot {
    fn fmt<W: fmt::Write>(&self, f: &mut fmt::Formatter<W>) -> fmt::Result {
        match self {
            Spot::Request(number) => write!(f, "request {number}"),
            Spot::Place(number) => write!(f, "place {number}"),
            Spot::Session(number) => write!(f, "session {number}"),
            Spot::Table(number) => write!(f, "table {number}"),
        }
    }
}

#[derive(Clone, Copy, PartialEq, Eq, Debug, Error)]
#[error("list {list}, {spot}: not the same over both stores")]
pub struct Difference {
    pub list: usize,
    pub spot: Spot,
}

fn same_event(left: &Event<Rung>, right: &Event<Rung>) -> bool {
    left.before == right.before
        && Expected::from(left.answer) == Expected::from(right.answer)
        && left.after == right.after
}

fn differing_event(left: &[Event<Rung>], right: &[Event<Rung>]) -> Option<usize> {
    left.iter()
        .zip(right)
        .position(|(left, right)| !same_event(left, right))
}

fn differing_place(left: &[Place<Rung>], right: &[Place<Rung>]) -> Option<usize> {
    left.iter().zip(right).position(|(left, right)| place_numbers(*left) != place_numbers(*right))
}

fn differing_session(left: &[Session<Rung>], right: &[Session<Rung>]) -> Option<usize> {
    left.iter()
        .zip(right)
        .position(|(left, right)| left != right)
}

fn same_rows<A: Store, B: Store>(left: &A, right: &B, table: usize) -> bool {
    let rows = left.row_count(table);
    rows == right.row_count(table)
        && (0..rows.unwrap_or(0)).all(|place| left.row(table, place) == right.row(table, place))
}

fn differing_table<A: Store, B: Store>(left: &A, right: &B) -> Option<usize> {
    let tables = left.table_count().max(right.table_count());
    (0..tables).find(|table| !same_rows(left, right, *table))
}

// The request that a place was lent to, counted from 0.
fn lent_to(requests: &[Request<Rung>], place: usize) -> Option<usize> {
    requests
        .iter()
        .scan(0usize, |end, request| {
            *end = end.saturating_add(request.ask.room());
            Some(*end)
        })
        .position(|end| place < end)
}

fn request_at(index: usize) -> Spot {
    Spot::Request(index.saturating_add(1))
}

// The tables are compared once all else is the same.
pub fn first_difference<A: Store, B: Store>(
    requests: &[Request<Rung>],
    left: &Run<A>,
    right: &Run<B>,
) -> Option<Spot> {
    if let Some(index) = differing_event(&left.events, &right.events) {
        return Some(request_at(index));
    }
    if let Some(place) = differing_place(&left.places, &right.places) {
        return Some(lent_to(requests, place).map_or(Spot::Place(place), request_at));
    }
    differing_session(&left.sessions, &right.sessions)
        .map(Spot::Session)
        .or_else(|| differing_table(&left.store, &right.store).map(Spot::Table))
}
