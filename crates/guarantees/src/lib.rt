// What an observer sees of a monitor, and what nobody learns above his label. Nothing here names a label kind or a store.
#![tactic(auto)]

mod comparison;
mod views;

pub use comparison::{Side, serve_both, serve_two};
pub use views::{
    EventView, SessionView, TableView, view_answer, view_event, view_place, view_request,
    view_result, view_row, view_sealed, view_session, view_table,
};
