ghost use Rattle.std.specs.Prelude.{◌≡◌, ◌+◌, ◌*◌, ◌%◌, ◌<◌, ◌≤◌, length, slice_index, slice_set, All};
ghost use Rattle.hold_base.specs.Limits.{cost_limit};
ghost use Rattle.hold_graph.specs.Sites.{cost_of};
ghost use Rattle.hold_proof.specs.inner.Changes.{vars_limit};

/// The cost of one buffer of the kind of a variable.
fn cost_of_var(costs: &[u64], var: usize) -> u64
    requires some { 0 < length costs.now }
    ensures { result ≡ slice_index costs.now (var % length costs.now) }
{
    costs[var % costs.len()]
}

/// The cost of counts, one for each variable.
pub(crate) fn cost_of(costs: &[u64], counts: &[u8]) -> u64
    requires kinds { 0 < length counts.now → 0 < length costs.now }
    requires costs { All (λ cost. cost ≤ cost_limit) costs.now }
    requires few { length counts.now ≤ vars_limit }
    ensures { result ≡ cost_of costs.now counts.now }
{
    let mut cost = 0;
    for (var, count) in counts.iter().enumerate() {
        cost += u64::from(*count) * cost_of_var(costs, var);
    }
    cost
}

/// What the cost of counts becomes once the count of a variable changes.
pub(crate) fn changed_cost(costs: &[u64], counts: &[u8], cost: u64, var: usize, count: u8) -> u64
    requires some { 0 < length costs.now }
    requires costs { All (λ cost. cost ≤ cost_limit) costs.now }
    requires few { length counts.now ≤ vars_limit }
    requires there { var < length counts.now }
    requires cost { cost ≡ cost_of costs.now counts.now }
    ensures { result ≡ cost_of costs.now (slice_set counts.now var count) }
{
    let each = cost_of_var(costs, var);
    cost - u64::from(counts[var]) * each + u64::from(count) * each
}
