// The entry `search`: the refusal table, the walk, and the answer.
#![tactic(auto)]

ghost use Rattle.std.specs.Prelude.{◌≡◌, not, [], ◌∷◌, ℕ, ◌+◌, ◌*◌, ◌≤◌, ◌<◌, T, length, get_or};
ghost use Rattle.std.specs.Float.{nan};
ghost use Rattle.std.specs.Float.Ieee.{is_nan};
ghost use Rattle.rules.specs.Loops.{any_of, over};
ghost use Rattle.rules.specs.Lists.{nodes_of, bits_of};
ghost use Rattle.rules.specs.Refusals.{decide, decision_of, holds, not_exactly, less_than};
ghost use Rattle.rules.specs.Calls.{scratch, search_scratch, search_rows};
ghost use Rattle.buffers.specs.Area.{area};
ghost use Rattle.expand.specs.Areas.{Room, best_at, best_in};
ghost use Rattle.search.specs.Search.{lent, Ready, Worked, Searched};

use metrics::{Asked, Counters};
use rules::{NodeId, Refusal, SearchCounts};

/// Row 6: whether a buffer has the wrong length.
fn wrong_buffers(
    n: usize,
    graph: usize,
    index_size: usize,
    k: usize,
    results: usize,
    bits: usize,
    words: usize,
    floats: usize,
) -> bool
    requires { (n ≤ 4096) × (index_size ≤ 64) }
    ensures { result ≡ any_of holds (not_exactly (n * index_size) graph ∷ less_than k results ∷ less_than k bits ∷ less_than (search_scratch n) words ∷ less_than (search_scratch n) floats ∷ []) }
{
    if graph != n * index_size {
        return true;
    }
    if results < k {
        return true;
    }
    if bits < k {
        return true;
    }
    let least = 4 * n + 1024;
    if words < least {
        return true;
    }
    floats < least
}

/// The rows of the table that are tested before the walk.
fn judge(
    dimension: usize,
    n: usize,
    lanes: &[f32],
    graph: usize,
    index_size: usize,
    roots: &[u32],
    query: &[f32],
    k: usize,
    results: usize,
    bits: usize,
    words: usize,
    floats: usize,
) -> Result<(), Refusal>
    ensures { decision_of result ≡ decide (search_rows dimension n (length lanes.now) graph index_size roots.now (length query.now) k results bits (scratch words floats)) }
{
    table::game(dimension, 4096, n, lanes.len())?;
    if table::outside(1, 64, index_size) {
        return Err(Refusal::Parameter);
    }
    if table::outside(1, 64, k) {
        return Err(Refusal::Parameter);
    }
    if wrong_buffers(n, graph, index_size, k, results, bits, words, floats) {
        return Err(Refusal::Buffer);
    }
    table::roots(n, roots)?;
    let counters = Counters {
        lanes,
        dimension,
        n,
    };
    if metrics::same_dimension(query, counters.lanes_of(NodeId(0))) {
        return Ok(());
    }
    Err(Refusal::Query)
}

/// Writes the best set to the results: its nodes, and its distances by their bits.
fn give(
    n: usize,
    m: usize,
    words: &[u32],
    floats: &[f32],
    result_nodes: &mut [u32],
    result_bits: &mut [u32],
)
    requires room { Room n words.now floats.now }
    requires m_bound { (m ≤ 64) × (m ≤ length result_nodes.old) × (m ≤ length result_bits.old) }
    requires by_index { (i : ℕ) → i < m → T (not (is_nan (get_or (area (best_at n) 64 floats.now) i nan))) }
    ensures result_nodes_after { result_nodes.new ≡ over m (nodes_of (best_in n words.now floats.now m)) result_nodes.old }
    ensures result_bits_after { result_bits.new ≡ over m (bits_of (best_in n words.now floats.now m)) result_bits.old }
{
    let from = n + n;
    let to = from + 64;
    buffers::copy_words(m, &words[from..to], result_nodes);
    buffers::copy_bits(m, &floats[from..to], result_bits);
}

/// The walk and its answer, once no row of the table holds.
fn work(
    asked: Asked<'_, '_>,
    graph: &[u32],
    index_size: usize,
    roots: &[u32],
    k: usize,
    result_nodes: &mut [u32],
    result_bits: &mut [u32],
    scratch_u: &mut [u32],
    scratch_f: &mut [f32],
) -> Result<SearchCounts, Refusal>
    requires { Ready (lent asked.counters.dimension asked.counters.n asked.counters.lanes.now graph.now index_size roots.now asked.query.now k result_nodes.old result_bits.old scratch_u.old scratch_f.old) }
    ensures { Worked (lent asked.entry.counters.dimension asked.entry.counters.n asked.entry.counters.lanes.now graph.now index_size roots.now asked.entry.query.now k result_nodes.old result_bits.old scratch_u.old scratch_f.old) result result_nodes.new result_bits.new scratch_u.new scratch_f.new }
{
    let n = asked.counters.n;
    let r = walk::walk(asked, graph, index_size, roots, k, scratch_u, scratch_f);
    match r {
        Err(v) => {
            buffers::zero_words(scratch_u);
            buffers::zero_floats(scratch_f);
            Err(Refusal::Pair(v, NodeId(n as u32)))
        }
        Ok(takings) => {
            let m = table::fewer(k, roots.len());
            give(n, m, scratch_u, scratch_f, result_nodes, result_bits);
            buffers::zero_words(scratch_u);
            buffers::zero_floats(scratch_f);
            Ok(SearchCounts { m, takings })
        }
    }
}

/// Names the nearest of the game's counters to a query (hora's `search`): rows 1, 2, 3, 4 (`index_size` and k), 6, 7 and 8, and 10
/// at the first unfit distance that the walk works out.
pub fn search(
    dimension: usize,
    n: usize,
    lanes: &[f32],
    graph: &[u32],
    index_size: usize,
    roots: &[u32],
    query: &[f32],
    k: usize,
    result_nodes: &mut [u32],
    result_bits: &mut [u32],
    scratch_u: &mut [u32],
    scratch_f: &mut [f32],
) -> Result<SearchCounts, Refusal>
    ensures { Searched (lent dimension n lanes.now graph.now index_size roots.now query.now k result_nodes.old result_bits.old scratch_u.old scratch_f.old) result result_nodes.new result_bits.new scratch_u.new scratch_f.new }
{
    judge(
        dimension,
        n,
        lanes,
        graph.len(),
        index_size,
        roots,
        query,
        k,
        result_nodes.len(),
        result_bits.len(),
        scratch_u.len(),
        scratch_f.len(),
    )?;
    let counters = Counters {
        lanes,
        dimension,
        n,
    };
    work(
        Asked { counters, query },
        graph,
        index_size,
        roots,
        k,
        result_nodes,
        result_bits,
        scratch_u,
        scratch_f,
    )
}
