// The nine requests, and serving them, one or a whole list. Nothing here names a label kind or a store.
#![tactic(auto)]

mod requests;
mod serving;

pub use requests::{Answer, Ask, Event, Request, ShortBuffer};
pub use serving::Monitor;
