// The entry `open` of a relay: the refusal table, the state written, and scratch zeroed.
#![tactic(auto)]

ghost use Rattle.std.specs.Prelude.{◌≡◌, [], ◌∷◌, ◌*◌, ◌≤◌, length};
ghost use Rattle.rules.specs.Loops.{any_of};
ghost use Rattle.rules.specs.Distance.{nodes_apart};
ghost use Rattle.rules.specs.Refusals.{decide, decision_of, holds, not_exactly, less_than};
ghost use Rattle.rules.specs.Calls.{scratch, odd, relay_words, relay_floats, taught_scratch, open_rows};
ghost use Rattle.rules.specs.Offers.{lists_formed};
ghost use Rattle.rules.specs.Places.{lists_in};
ghost use Rattle.relay_opening.specs.Opening.{lent, Opened};

use metrics::Counters;
use rules::Refusal;

/// Row 6, of what is lent to read: whether the lists or the jobs have the wrong length.
fn wrong_lists(n: usize, k: usize, nodes: usize, distances: usize, jobs: usize) -> bool
    requires { (n ≤ 1024) × (k ≤ 64) }
    ensures { result ≡ any_of holds (not_exactly (n * k) nodes ∷ not_exactly (n * k) distances ∷ odd jobs ∷ []) }
{
    if nodes != n * k {
        return true;
    }
    if distances != n * k {
        return true;
    }
    jobs % 2 != 0
}

/// Row 6, of what is lent to write: whether the state or scratch has the wrong length.
fn wrong_places(n: usize, k: usize, words: usize, floats: usize, su: usize, sf: usize) -> bool
    requires { (n ≤ 1024) × (k ≤ 64) }
    ensures { result ≡ any_of holds (not_exactly (relay_words n k) words ∷ not_exactly (relay_floats n k) floats ∷ less_than (taught_scratch n) su ∷ less_than (taught_scratch n) sf ∷ []) }
{
    if words != n * (k + 65) + 1024 {
        return true;
    }
    if floats != n * (k + 64) + 64 {
        return true;
    }
    let least = 512 * n + 4096;
    if su < least {
        return true;
    }
    sf < least
}

/// Rows 1, 2, 3, 4 (k), 6, 9, 10 (its jobs with unequal nodes, in order) and 12 (the lists): nothing is written before they have passed.
fn judge(
    dimension: usize,
    n: usize,
    lanes: &[f32],
    k: usize,
    nodes: &[u32],
    distances: &[f32],
    jobs: &[u32],
    words: usize,
    floats: usize,
    su: usize,
    sf: usize,
) -> Result<(), Refusal>
    ensures { decision_of result ≡ decide (open_rows dimension n (length lanes.now) k (length nodes.now) (length distances.now) jobs.now (length jobs.now) words floats (scratch su sf) (nodes_apart lanes.now dimension) (lists_formed n (lists_in n k nodes.now distances.now))) }
{
    table::game(dimension, 1024, n, lanes.len())?;
    if table::outside(1, 64, k) {
        return Err(Refusal::Parameter);
    }
    if wrong_lists(n, k, nodes.len(), distances.len(), jobs.len()) {
        return Err(Refusal::Buffer);
    }
    if wrong_places(n, k, words, floats, su, sf) {
        return Err(Refusal::Buffer);
    }
    relay_rows::jobs_row(n, jobs)?;
    let counters = Counters {
        lanes,
        dimension,
        n,
    };
    relay_rows::unfit_row(counters, jobs)?;
    if formed::lists_formed(nodes, distances, n, k) {
        return Ok(());
    }
    Err(Refusal::State)
}

/// Opens a relay on lists and jobs (hora's locked `update`s, taken apart): writes its state, with the distance of each job. Rows 1, 2, 3, 4 (k),
/// 6, 9, 10 (its jobs with unequal nodes, in order) and 12 (the lists). A refusal changes no lent byte; after success scratch is all zero.
pub fn open(
    dimension: usize,
    n: usize,
    lanes: &[f32],
    k: usize,
    nodes: &[u32],
    distances: &[f32],
    jobs: &[u32],
    state_u: &mut [u32],
    state_f: &mut [f32],
    scratch_u: &mut [u32],
    scratch_f: &mut [f32],
) -> Result<(), Refusal>
    ensures { Opened (lent dimension n lanes.now k nodes.now distances.now jobs.now state_u.old state_f.old scratch_u.old scratch_f.old) result state_u.new state_f.new scratch_u.new scratch_f.new }
{
    judge(
        dimension,
        n,
        lanes,
        k,
        nodes,
        distances,
        jobs,
        state_u.len(),
        state_f.len(),
        scratch_u.len(),
        scratch_f.len(),
    )?;
    let counters = Counters {
        lanes,
        dimension,
        n,
    };
    relay_open::write_state(counters, k, nodes, distances, jobs, state_u, state_f);
    buffers::zero_words(scratch_u);
    buffers::zero_floats(scratch_f);
    Ok(())
}
