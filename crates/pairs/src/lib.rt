// Row 10 of build, begin and iteration: no pair is measured where every lane is so small that no distance can be unfit.
#![tactic(auto)]

ghost use Rattle.std.specs.Prelude.{◌≡◌, [], ◌∷◌, ◌*◌, ◌≤◌, length};
ghost use Rattle.rules.specs.Refusals.{decide, decision_of, row10};
ghost use Rattle.metrics.specs.Counters.{apart};
ghost use Rattle.pairs.specs.Within.{within, all_within};

use metrics::Counters;
use rules::Refusal;

// Whether a lane is at most 2 to the 30th in size; a NaN is not.
fn is_small(x: f32) -> bool
    ensures { result ≡ within 30 x }
{
    if x <= 1073741824.0 {
        return -1073741824.0 <= x;
    }
    false
}

// Whether every lane is; all are looked at, so that the compiler can test several at once.
fn all_small(lanes: &[f32]) -> bool
    ensures { result ≡ all_within 30 lanes.now }
{
    let mut all = true;
    for i in 0..lanes.len() {
        if !is_small(lanes[i]) {
            all = false;
        }
    }
    all
}

/// Row 10 of build, begin and iteration, as `metrics::first_unfit` gives it.
pub fn first_unfit(counters: Counters<'_>) -> Result<(), Refusal>
    requires { counters.n ≤ 4096 }
    ensures { decision_of result ≡ decide (row10 (apart counters.entry) counters.entry.n ∷ []) }
{
    if counters.dimension <= 64 {
        if all_small(counters.lanes) {
            return Ok(());
        }
    }
    kernels::first_unfit(counters)
}
