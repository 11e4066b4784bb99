// The entry `begin` of a descent: the refusal table, what it writes, and scratch zeroed.
#![tactic(auto)]

ghost use Rattle.std.specs.Prelude.{◌≡◌, [], ◌∷◌, ◌*◌, ◌≤◌, length};
ghost use Rattle.rules.specs.Loops.{any_of};
ghost use Rattle.rules.specs.Numbers.{outside};
ghost use Rattle.rules.specs.Distance.{nodes_apart};
ghost use Rattle.rules.specs.Refusals.{decide, decision_of, holds};
ghost use Rattle.rules.specs.Calls.{scratch, descent_buffers, descent_rows};
ghost use Rattle.descent.specs.Descent.{lent, BegunAll};

use metrics::Counters;
use rules::Refusal;

/// Row 4: whether k or s is outside its range.
#[tactic(auto, unfolding(rules::specs::Loops::any_of))]
fn wrong_sizes(k: usize, s: usize) -> bool
    ensures { result ≡ any_of holds (outside 1 64 k ∷ outside 1 k s ∷ []) }
{
    table::outside(1, 64, k) || table::outside(1, k, s)
}

/// Row 6: whether a buffer has the wrong length.
#[tactic(auto, unfolding(rules::specs::Loops::any_of))]
fn wrong_buffers(
    n: usize,
    k: usize,
    state_u: usize,
    state_f: usize,
    words: usize,
    floats: usize,
) -> bool
    requires { (n ≤ 1024) × (k ≤ 64) }
    ensures { result ≡ any_of holds (descent_buffers n k state_u state_f (scratch words floats)) }
{
    let lists = n * k;
    let least = 512 * n + 4096;
    state_u != lists + 260 * n + (n * n + 31) / 32
        || state_f != lists
        || words < least
        || floats < least
}

/// The rows that begin and iterate test before their draws: 1, 2, 3, 4 (k and s), 6 and, of all pairs, 10.
pub fn judge(
    dimension: usize,
    n: usize,
    lanes: &[f32],
    k: usize,
    s: usize,
    state_u: usize,
    state_f: usize,
    words: usize,
    floats: usize,
) -> Result<(), Refusal>
    ensures { decision_of result ≡ decide (descent_rows dimension n (length lanes.now) k s state_u state_f (scratch words floats) (nodes_apart lanes.now dimension) []) }
{
    table::game(dimension, 1024, n, lanes.len())?;
    if wrong_sizes(k, s) {
        return Err(Refusal::Parameter);
    }
    if wrong_buffers(n, k, state_u, state_f, words, floats) {
        return Err(Refusal::Buffer);
    }
    pairs::first_unfit(Counters {
        lanes,
        dimension,
        n,
    })
}

/// Begins a descent (hora's `init`): unfilled lists, for each node `s` new and then `s` reversed-new draws modulo n, no pair visited. Rows 1,
/// 2, 3, 4 (k and s), 6, 10 and 11. A refusal changes no lent byte; after success scratch is all zero.
pub fn begin(
    dimension: usize,
    n: usize,
    lanes: &[f32],
    k: usize,
    s: usize,
    draws: &[u32],
    state_u: &mut [u32],
    state_f: &mut [f32],
    scratch_u: &mut [u32],
    scratch_f: &mut [f32],
) -> Result<(), Refusal>
    ensures { BegunAll (lent dimension n lanes.now k s draws.now state_u.old state_f.old scratch_u.old scratch_f.old) result state_u.new state_f.new scratch_u.new scratch_f.new }
{
    judge(
        dimension,
        n,
        lanes,
        k,
        s,
        state_u.len(),
        state_f.len(),
        scratch_u.len(),
        scratch_f.len(),
    )?;
    if draws.len() < 2 * n * s {
        return Err(Refusal::Draws);
    }
    begins::begin_state(n, k, s, draws, state_u, state_f);
    scratch_u.fill(0);
    scratch_f.fill(0.0);
    Ok(())
}
