// Requests with rung labels written as numbers, tables of them with the answers and standings that docs/MODEL.md gives them,
// worked out by hand, and playing such a table on whatever serves requests.
#![tactic(auto)]

pub mod cases;
mod expected;
mod requests;
mod setting;
#[cfg(test)]
mod tests;

pub use expected::{Case, Expected, Mismatch, Outcome, Server, numbers, play, standing_of};
pub use requests::{Ask, Request, sealed};
pub use setting::{blank_place, place, place_numbers, records};
