// The work of one iteration, once no row of the table holds: pairs meet, new and old lists, reversed lists.
#![tactic(auto)]

ghost use Rattle.std.specs.Prelude.{◌*◌, ◌≤◌, length};
ghost use Rattle.metrics.specs.Counters.{between};
ghost use Rattle.meets.specs.Meets.{Game};
ghost use Rattle.iterates.specs.Iterates.{Fit, MetIn, IteratedIn};

use metrics::Counters;
use rules::IterateCounts;

// The seven passes over every context (hora's `iterate_nn`), over a copy of the contexts in scratch; returns the cost.
fn meet_contexts(
    counters: Counters<'_>,
    k: usize,
    words: &mut [u32],
    floats: &mut [f32],
    scratch: &mut [u32],
) -> usize
    requires { Game counters.dimension counters.n k counters.lanes.now words.old floats.old × Fit counters.n k words.old floats.old × (512 * counters.n ≤ length scratch.old) }
    ensures { MetIn (between counters.entry) counters.entry.n k words.old floats.old scratch.old words.new floats.new scratch.new result }
{
    let n = counters.n;
    let lists = n * k;
    let marks = lists + 260 * n;
    buffers::copy_all(&words[lists..marks], &mut scratch[..260 * n]);
    passes::meet_all(counters, k, scratch, words, floats)
}

/// One iteration (hora's `iterate`) on a well-formed state. What is left in scratch is of no use.
pub fn iterate_state(
    counters: Counters<'_>,
    k: usize,
    s: usize,
    draws: &[u32],
    words: &mut [u32],
    floats: &mut [f32],
    scratch: &mut [u32],
) -> IterateCounts
    requires { Game counters.dimension counters.n k counters.lanes.now words.old floats.old × Fit counters.n k words.old floats.old × (s ≤ k) × (2 * counters.n * k ≤ length draws.now) × (512 * counters.n ≤ length scratch.old) }
    ensures { IteratedIn (between counters.entry) draws.now counters.entry.n k s words.old floats.old scratch.old words.new floats.new scratch.new result.cost result.new }
{
    let cost = meet_contexts(counters, k, words, floats, scratch);
    let new = renewals::renew_state(counters.n, k, s, draws, words, scratch);
    IterateCounts { cost, new }
}
