// The entry `iterate` of a descent: the refusal table, one iteration, and scratch zeroed.
#![tactic(auto)]

ghost use Rattle.std.specs.Prelude.{◌≡◌, length};
ghost use Rattle.rules.specs.Distance.{nodes_apart};
ghost use Rattle.rules.specs.Refusals.{decide, decision_of};
ghost use Rattle.rules.specs.Calls.{scratch, iterate_rows};
ghost use Rattle.rules.specs.DescentPlaces.{descent_formed};
ghost use Rattle.descent.specs.Descent.{lent};
ghost use Rattle.iterate.specs.Iterate.{IteratedAll};

use metrics::Counters;
use rules::{IterateCounts, Refusal};

/// The rows that begin tests too, then 11 (2nk draws) and 12.
fn judge(
    dimension: usize,
    n: usize,
    lanes: &[f32],
    k: usize,
    s: usize,
    draws: usize,
    state_u: &[u32],
    state_f: &[f32],
    words: usize,
    floats: usize,
) -> Result<(), Refusal>
    ensures { decision_of result ≡ decide (iterate_rows dimension n (length lanes.now) k s (length state_u.now) (length state_f.now) (scratch words floats) (nodes_apart lanes.now dimension) draws (descent_formed n k state_u.now state_f.now)) }
{
    descent::judge(
        dimension,
        n,
        lanes,
        k,
        s,
        state_u.len(),
        state_f.len(),
        words,
        floats,
    )?;
    if draws < 2 * n * k {
        return Err(Refusal::Draws);
    }
    if descent_state::descent_formed(n, k, state_u, state_f) {
        return Ok(());
    }
    Err(Refusal::State)
}

/// One iteration of a descent (hora's `iterate`): answers its cost and the total of new. Rows 1, 2, 3, 4 (k and s), 6, 10, 11 and 12. A
/// refusal changes no lent byte; after success scratch is all zero.
pub fn iterate(
    dimension: usize,
    n: usize,
    lanes: &[f32],
    k: usize,
    s: usize,
    draws: &[u32],
    state_u: &mut [u32],
    state_f: &mut [f32],
    scratch_u: &mut [u32],
    scratch_f: &mut [f32],
) -> Result<IterateCounts, Refusal>
    ensures { IteratedAll (lent dimension n lanes.now k s draws.now state_u.old state_f.old scratch_u.old scratch_f.old) result state_u.new state_f.new scratch_u.new scratch_f.new }
{
    judge(
        dimension,
        n,
        lanes,
        k,
        s,
        draws.len(),
        state_u,
        state_f,
        scratch_u.len(),
        scratch_f.len(),
    )?;
    let counters = Counters {
        lanes,
        dimension,
        n,
    };
    let counts = iterates::iterate_state(counters, k, s, draws, state_u, state_f, scratch_u);
    buffers::zero_words(scratch_u);
    buffers::zero_floats(scratch_f);
    Ok(counts)
}
