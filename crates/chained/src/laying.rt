// The chains and the links of a new store.
ghost use Rattle.std.specs.Prelude.{◌≡◌, length, map};
ghost use Rattle.stores.specs.Plans.{limits_of};
ghost use Rattle.chained.specs.Steps.{InOrder, empty_chain};

use crate::links::{Cell, Chain};
use arrayvec::ArrayVec;
use stores::Plan;

pub fn empty_chains<const N: usize>(plan: &Plan<N>) -> ArrayVec<Chain, 8>
    ensures { result.items ≡ map empty_chain (limits_of plan.now) }
{
    let mut chains = ArrayVec::new();
    for &limit in plan.limits() {
        chains.push(Chain {
            limit,
            ..Chain::default()
        });
    }
    chains
}

// Each cell leads on to the one behind it.
pub fn link_in_order(cells: &mut [Cell])
    ensures { InOrder cells.new (length cells.old) }
{
    for (here, cell) in cells.iter_mut().enumerate() {
        cell.next = here + 1;
    }
}
