// In which of the three runs of a teardrop an edge is: `symmetrical_trichotomy` of coloring/mod.rs, by the rule in
// whole numbers that SCOPE, Leaves, has for its float expression, and the balanced rule.
ghost use Rattle.std.specs.Prelude.{◌≡◌, ◌≤◌, ◌<◌};
ghost use Rattle.coloring.specs.Limits.{max_result_edges};
ghost use Rattle.coloring.specs.Trichotomy.{number_of, third_by};

use crate::settings::Division;

// One of the three runs.
#[derive(Clone, Copy, PartialEq, Eq)]
pub(crate) enum Third {
    First,
    Middle,
    Last,
}

// First near the start, last near the end of n places.
#[tactic(auto, unfolding(crate::specs::Trichotomy::symmetrical_trichotomy, crate::specs::Trichotomy::balanced))]
pub(crate) fn third_by(division: Division, position: usize, n: usize) -> Third
    requires { (position < n) × (n ≤ max_result_edges) }
    ensures { number_of result ≡ third_by division position n }
{
    if 46 * position < 15 * (n - 1) {
        return Third::First;
    }
    let in_middle = match division {
        Division::Source => 46 * position < 31 * (n - 1),
        Division::Balanced => 46 * position <= 31 * (n - 1),
    };
    if in_middle {
        Third::Middle
    } else {
        Third::Last
    }
}
