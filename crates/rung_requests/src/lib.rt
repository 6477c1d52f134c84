// Requests with rung labels, written by numbers, and the requests of the worked example.
#![tactic(auto)]

ghost use Rattle.std.specs.Prelude.{◌≡◌};
ghost use Rattle.labels.specs.Rung.{own};
ghost use Rattle.sessions.specs.Steps.{sealed_value};
ghost use Rattle.monitor.specs.declared.requests.Ask.TheVariants.{Open as OpenAsk, Unseal as UnsealAsk, Select as SelectAsk, Insert as InsertAsk, Delete as DeleteAsk, Update as UpdateAsk};
ghost use Rattle.rung_requests.specs.Requests.{asked_of, ruled};

pub mod blanks;
pub mod example;
pub mod predicates;

use labels::{Label, Rung};
use monitor::{Ask, Request};
use sessions::Sealed;
use tables::{Predicate, SecondRule, TableRecord};

pub fn rung(number: i32) -> Rung
    ensures { result ≡ own number }
{
    Rung::own_label(number)
}

// The record of a table, by the numbers of its label and of the label of its first fields, and the rule for second fields.
pub fn table_record(table: i32, first: i32, second: SecondRule<Rung>) -> TableRecord<Rung>
    ensures { result ≡ ruled table first second }
{
    TableRecord {
        table: rung(table),
        first: rung(first),
        second,
    }
}

// A value sealed under the rung of a number.
pub fn sealed(label: i32, value: i32) -> Sealed<Rung>
    ensures { result ≡ sealed_value (own label) value }
{
    Sealed::new(rung(label), value)
}

pub fn open(session: usize, label: i32, clearance: i32) -> Request<Rung>
    ensures { result ≡ asked_of session (OpenAsk (own label) (own clearance)) }
{
    Request {
        session,
        ask: Ask::Open(rung(label), rung(clearance)),
    }
}

pub fn unseal(session: usize, value: Sealed<Rung>) -> Request<Rung>
    ensures { result ≡ asked_of session (UnsealAsk value) }
{
    Request {
        session,
        ask: Ask::Unseal(value),
    }
}

pub fn select(session: usize, table: usize, predicate: Predicate, places: usize) -> Request<Rung>
    ensures { result ≡ asked_of session (SelectAsk table predicate places) }
{
    Request {
        session,
        ask: Ask::Select(table, predicate, places),
    }
}

pub fn insert(
    session: usize,
    table: usize,
    first: Sealed<Rung>,
    second: Sealed<Rung>,
) -> Request<Rung>
    ensures { result ≡ asked_of session (InsertAsk table first second) }
{
    Request {
        session,
        ask: Ask::Insert(table, first, second),
    }
}

pub fn delete(session: usize, table: usize, predicate: Predicate) -> Request<Rung>
    ensures { result ≡ asked_of session (DeleteAsk table predicate) }
{
    Request {
        session,
        ask: Ask::Delete(table, predicate),
    }
}

pub fn update(
    session: usize,
    table: usize,
    predicate: Predicate,
    first: Sealed<Rung>,
    second: Sealed<Rung>,
) -> Request<Rung>
    ensures { result ≡ asked_of session (UpdateAsk table predicate first second) }
{
    Request {
        session,
        ask: Ask::Update(table, predicate, first, second),
    }
}
