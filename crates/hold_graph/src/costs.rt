ghost use Rattle.std.specs.Prelude.{◌≡◌, ◌<◌, ◌≤◌, ◌^◌, All, length};
ghost use Rattle.hold_base.specs.Limits.{chain_limit, cost_limit};
ghost use Rattle.hold_graph.specs.Problem.{IsValid};
ghost use Rattle.hold_graph.specs.Sites.{AreCountsOf, cost_of};

use crate::counts::{Counts, variable_count};
use crate::problem::Problem;

/// Each count times its kind's cost, summed.
fn sum_of(costs: &[u64], counts: &[u8]) -> u64
    requires few { length counts.now ≤ 2 ^ 23 }
    requires kinds { 0 < length counts.now → 0 < length costs.now }
    requires costs { All (λ cost. cost ≤ cost_limit) costs.now }
    requires most { All (λ count. count ≤ chain_limit) counts.now }
    ensures { result ≡ cost_of costs.now counts.now }
{
    let mut sum = 0;
    for (var, count) in counts.iter().enumerate() {
        sum += u64::from(*count) * costs[var % costs.len()];
    }
    sum
}

/// The cost of these counts of the problem's variables.
pub fn cost(problem: &Problem, counts: &Counts) -> u64
    requires valid { IsValid problem.now }
    requires counts { AreCountsOf problem.now counts.now }
    ensures { result ≡ cost_of problem.now.costs counts.now }
{
    let counts = counts.as_slice();
    let variables = variable_count(problem);
    prove!(counts.len() == variables);
    sum_of(problem.costs.as_slice(), counts)
}
