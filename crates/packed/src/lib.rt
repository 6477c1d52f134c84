// A store whose tables each have a stretch of one list of lent rows.
#![tactic(auto)]

mod fill;
mod laying;
mod packed;
mod stretch;

pub use packed::Packed;
