// A store whose tables are chains through one list of lent cells.
#![tactic(auto)]

mod chained;
mod laying;
mod lent;
mod links;

pub use chained::Chained;
pub use links::Cell;
