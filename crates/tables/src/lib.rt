// Table records, predicates, and the requests on tables. Nothing here names a label kind or a store.
// Sessions, records and store are lent one by one: a selection is lent its store by `&`. A session is looked up by index, as in
// `sessions`.
#![tactic(auto)]

mod deletion;
mod fills;
mod insertion;
mod places;
mod queries;
mod records;
mod scans;
mod selection;
mod updating;

pub use deletion::delete;
pub use insertion::insert;
pub use queries::{Place, Predicate, Range};
pub use records::{SecondRule, TableRecord};
pub use selection::select;
pub use updating::update;
