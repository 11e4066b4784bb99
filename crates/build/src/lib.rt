// The entry `build`: the refusal table, steps 1 to 6, and scratch zeroed.
#![tactic(auto)]

ghost use Rattle.std.specs.Prelude.{◌≡◌, [], ◌∷◌, ◌*◌, ◌≤◌};
ghost use Rattle.rules.specs.Loops.{any_of};
ghost use Rattle.rules.specs.Numbers.{outside, bad_threshold};
ghost use Rattle.rules.specs.Refusals.{decide, decision_of, holds, not_exactly, less_than};
ghost use Rattle.rules.specs.Calls.{build_scratch};
ghost use Rattle.rules.specs.BuildCall.{build_table};
ghost use Rattle.build.specs.Build.{lent, Ready, Sliced, Worked, Built};

use metrics::Counters;
use params::SsgParams;
use rules::Refusal;

/// Row 4: whether a size of the parameters is outside its range.
#[tactic(auto, unfolding(rules::specs::Loops::any_of))]
fn wrong_sizes(init_k: usize, index_size: usize, hops: usize) -> bool
    ensures { result ≡ any_of holds (outside 1 64 init_k ∷ outside 1 64 index_size ∷ outside 1 256 hops ∷ []) }
{
    table::outside(1, 64, init_k)
        || table::outside(1, 64, index_size)
        || table::outside(1, 256, hops)
}

/// Row 5: whether the threshold is a NaN or outside -1 to 1.
fn wrong_threshold(threshold: f32) -> bool
    ensures { result ≡ bad_threshold threshold }
{
    !(-1.0 <= threshold && threshold <= 1.0)
}

/// Row 6: whether a buffer has the wrong length.
#[tactic(auto, unfolding(rules::specs::Loops::any_of))]
fn wrong_buffers(
    n: usize,
    init_k: usize,
    index_size: usize,
    graph: usize,
    words: usize,
    floats: usize,
) -> bool
    requires { (n ≤ 4096) × (init_k ≤ 64) × (index_size ≤ 64) }
    ensures { result ≡ any_of holds (not_exactly (n * index_size) graph ∷ less_than (build_scratch n init_k index_size) words ∷ less_than (build_scratch n init_k index_size) floats ∷ []) }
{
    let least = 4 * n * (init_k + index_size) + 4096;
    graph != n * index_size || words < least || floats < least
}

/// Rows 1 to 6 and, of all pairs, 10: nothing is written before they have passed.
fn judge(
    params: SsgParams,
    dimension: usize,
    n: usize,
    lanes: &[f32],
    graph: &[u32],
    words: &[u32],
    floats: &[f32],
) -> Result<(), Refusal>
    ensures { decision_of result ≡ decide (build_table (lent params dimension n lanes.now graph.now words.now floats.now)) }
{
    table::game(dimension, 4096, n, lanes.len())?;
    if wrong_sizes(
        params.init_k,
        params.index_size,
        params.neighbor_neighbor_size,
    ) {
        return Err(Refusal::Parameter);
    }
    if wrong_threshold(params.threshold) {
        return Err(Refusal::Threshold);
    }
    if wrong_buffers(
        n,
        params.init_k,
        params.index_size,
        graph.len(),
        words.len(),
        floats.len(),
    ) {
        return Err(Refusal::Buffer);
    }
    pairs::first_unfit(Counters {
        lanes,
        dimension,
        n,
    })
}

/// Steps 1 to 4: the slots' nodes in the graph's places, their distances in the front of `floats`; `words` holds the exact lists.
fn slots(
    params: SsgParams,
    counters: Counters<'_>,
    graph: &mut [u32],
    words: &mut [u32],
    floats: &mut [f32],
)
    requires { Ready (lent params counters.dimension counters.n counters.lanes.now graph.old words.old floats.old) }
    ensures { Sliced (lent params counters.entry.dimension counters.entry.n counters.entry.lanes.now graph.old words.old floats.old) graph.new words.new floats.new }
{
    taught::exact_all(counters, params.init_k, floats, words);
    let count = table::fewer(params.init_k, counters.n - 1);
    pruned::prune_all(
        counters,
        params.init_k,
        count,
        params.neighbor_neighbor_size,
        params.threshold,
        params.index_size,
        words,
        graph,
        floats,
    );
}

/// Steps 1 to 6, once no row of the table holds, and scratch zeroed.
fn work(
    params: SsgParams,
    counters: Counters<'_>,
    graph: &mut [u32],
    words: &mut [u32],
    floats: &mut [f32],
)
    requires { Ready (lent params counters.dimension counters.n counters.lanes.now graph.old words.old floats.old) }
    ensures { Worked (lent params counters.entry.dimension counters.entry.n counters.entry.lanes.now graph.old words.old floats.old) graph.new words.new floats.new }
{
    slots(params, counters, graph, words, floats);
    let mut pool = [0.0f32; 65];
    links::link_all(
        counters,
        params.threshold,
        params.index_size,
        graph,
        floats,
        words,
        &mut pool,
    );
    rows::finish(counters.n, params.index_size, graph, floats);
    buffers::zero_words(words);
    buffers::zero_floats(floats);
}

/// Teaches a game: writes its graph, `index_size` places a counter (hora's `build`). Rows 1, 2, 3, 4 (the sizes of the parameters), 5, 6
/// and 10, the first unfit pair i < j. A refusal changes no lent byte; after success scratch is all zero.
pub fn build(
    params: SsgParams,
    dimension: usize,
    n: usize,
    lanes: &[f32],
    graph: &mut [u32],
    scratch_u: &mut [u32],
    scratch_f: &mut [f32],
) -> Result<(), Refusal>
    ensures { Built (lent params dimension n lanes.now graph.old scratch_u.old scratch_f.old) result graph.new scratch_u.new scratch_f.new }
{
    judge(params, dimension, n, lanes, graph, scratch_u, scratch_f)?;
    let counters = Counters {
        lanes,
        dimension,
        n,
    };
    work(params, counters, graph, scratch_u, scratch_f);
    Ok(())
}
