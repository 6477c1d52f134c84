// Events and places as programs lend them.
ghost use Rattle.std.specs.Prelude.{◌≡◌};
ghost use Rattle.rung_requests.specs.Requests.{no_place as no_place_of};

use crate::sealed;
use labels::Rung;
use monitor::{Answer, Event};
use tables::Place;

pub const NO_EVENT: Event<Rung> = Event {
    before: None,
    answer: Ok(Answer::Done),
    after: None,
};

pub fn no_place() -> Place<Rung>
    ensures { result ≡ no_place_of }
{
    Place {
        key: 0,
        first: sealed(0, 0),
        second: sealed(0, 0),
    }
}
