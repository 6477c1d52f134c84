// What a store is: an interface whose meaning is a list of tables, and the layout of a store from the limits of its tables.
#![tactic(auto)]

mod layout;
mod plan;
mod rows;
mod store;
#[cfg(test)]
mod tests;
mod visits;

pub use plan::{LayoutRefusal, Plan};
pub use rows::{AddRefusal, Fate, Row};
pub use store::Store;
pub use visits::{Edit, Visit};
