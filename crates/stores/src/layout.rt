// Limits are laid out, or refused.
ghost use Rattle.std.specs.Prelude.{◌≡◌, length, slice_index};
ghost use Rattle.stores.specs.Layout.{small_sum, laying_out};
ghost use Rattle.stores.specs.Plans.{limits_of, planned};

use crate::plan::{LayoutRefusal, Plan};

// The sum of limits, unless it exceeds 2,048.
fn sum_of(limits: &[usize]) -> Option<usize>
    ensures { result ≡ small_sum limits.now }
{
    let mut sum = 0;
    for limit in limits {
        if *limit > 2048 - sum {
            return None;
        }
        sum += *limit;
    }
    Some(sum)
}

impl<const N: usize> Plan<N> {
    pub fn of(limits: &[usize]) -> Result<Plan<N>, LayoutRefusal>
        ensures { planned result ≡ laying_out limits.now N }
    {
        let count = limits.len();
        if count == 0 {
            return Err(LayoutRefusal);
        }
        if count > 8 {
            return Err(LayoutRefusal);
        }
        let sum = sum_of(limits).ok_or(LayoutRefusal)?;
        if sum > N {
            return Err(LayoutRefusal);
        }
        let mut laid = [0; 8];
        laid[0..count].copy_from_slice(limits);
        Ok(Plan {
            limits: laid,
            count,
        })
    }

    pub fn count(&self) -> usize
        ensures { result ≡ length (limits_of self.now) }
    {
        self.count
    }

    // The limits of the tables, in their order.
    pub fn limits(&self) -> &[usize]
        ensures { result.now ≡ limits_of self.now }
    {
        &self.limits[0..self.count]
    }

    // The limit of a table, 0 beyond the last.
    pub fn limit(&self, table: usize) -> usize
        ensures { result ≡ slice_index (limits_of self.now) table }
    {
        self.limits().get(table).copied().unwrap_or(0)
    }
}
