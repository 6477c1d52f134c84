// What a walk that fills answer places takes along.
use crate::queries::{Place, Predicate};
use crate::records::TableRecord;

// The matching rows go into the places from the next one on. An index and no `iter_mut`, of which a proof does not know what
// was written.
#[derive(Drop)]
pub struct Filling<'a, 'b, L> {
    pub places: &'a mut [Place<L>],
    pub next: usize,
    pub record: &'b TableRecord<L>,
    pub predicate: Predicate,
}
