// The stretches of a new store.
ghost use Rattle.std.specs.Prelude.{◌≡◌};
ghost use Rattle.stores.specs.Plans.{limits_of};
ghost use Rattle.packed.specs.Stretches.{empty_stretches};

use crate::fill::Fill;
use crate::stretch::Stretch;
use arrayvec::ArrayVec;
use stores::Plan;

pub fn lay_out<const N: usize>(plan: &Plan<N>) -> ArrayVec<Stretch, 8>
    ensures { result.items ≡ empty_stretches 0 (limits_of plan.now) }
{
    let mut stretches = ArrayVec::new();
    let mut from = 0;
    for &limit in plan.limits() {
        stretches.push(Stretch {
            from,
            limit,
            fill: Fill::default(),
        });
        from += limit;
    }
    stretches
}
