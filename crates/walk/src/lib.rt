// The walk of a search: its start from the roots, and the nodes of its queue expanded until none is left.
#![tactic(auto)]

ghost use Rattle.std.specs.Prelude.{◌≡◌, ℕ, ◌+◌, ◌≤◌, ◌<◌, min, length, get_or};
ghost use Rattle.rules.specs.Loops.{through};
ghost use Rattle.metrics.specs.Counters.{asked_apart};
ghost use Rattle.rules.specs.Rows.{graph_row};
ghost use Rattle.rules.specs.Search.{mark, walk, search_of};
ghost use Rattle.expand.specs.Areas.{Room, BestSound};
ghost use Rattle.expand.specs.Queue.{Rows, QueueSound, walk_in};
ghost use Rattle.walk.specs.Walks.{Roots, bound, RootsFound, Marked, Entered, StartedIn, WalkedIn};

use metrics::Asked;
use rules::NodeId;

/// The distance beyond which no root enters: that of the k-th found so far, and the mark of an empty slot where there are fewer.
fn bound(n: usize, floats: &[f32], len: usize, k: usize) -> f32
    requires { (n ≤ 4096) × (n + n + 128 ≤ length floats.now) × (1 ≤ k) × (len ≤ 64) }
    ensures { result ≡ bound n floats.now len k }
{
    if len < k {
        return 3.4028235e38;
    }
    let at = n + n + 64 + k - 1;
    floats[at]
}

/// Works the roots out in the given order, sorted among the entries found; those beyond the k-th of them are passed over.
fn roots_found(
    asked: Asked<'_, '_>,
    roots: &[u32],
    k: usize,
    words: &mut [u32],
    floats: &mut [f32],
) -> Result<usize, NodeId>
    requires few { asked.counters.n ≤ 4096 }
    requires room { Room asked.counters.n words.old floats.old }
    requires roots { Roots asked.counters.n roots.now }
    requires le_k { 1 ≤ k }
    ensures { RootsFound (asked_apart asked.entry) asked.entry.counters.n k roots.now words.old floats.old words.new floats.new result }
{
    let n = asked.counters.n;
    let mut len: usize = 0;
    for &v in roots {
        let far = bound(n, floats, len, k);
        len = expand::work_out(asked, words, floats, len, far, NodeId(v))?;
    }
    Ok(len)
}

/// Marks every root as seen.
fn mark_roots(flags: &mut [u32], roots: &[u32])
    requires { (i : ℕ) → i < length roots.now → get_or roots.now i 0 < length flags.old }
    ensures { flags.new ≡ through mark roots.now flags.old }
{
    for &v in roots {
        flags[v as usize] = 1;
    }
}

/// The first `m` entries found enter the best set and the queue.
fn enter(n: usize, words: &mut [u32], floats: &mut [f32], m: usize)
    requires room { Room n words.old floats.old }
    requires m_bound { (m ≤ 64) × (m ≤ n) }
    ensures { Entered n m words.old floats.old words.new floats.new }
{
    for i in 0..m {
        let from = n + n + 64 + i;
        let to = n + n + i;
        let v = words[from];
        words[to] = v;
        floats[to] = floats[from];
        let at = n + i;
        words[at] = v;
    }
}

/// Clears every flag and marks the roots.
fn mark_all(n: usize, roots: &[u32], words: &mut [u32])
    requires roots { Roots n roots.now }
    requires n_in_bounds { n + n + 128 ≤ length words.old }
    ensures { Marked n roots.now words.old words.new }
{
    buffers::zero_words(&mut words[..n]);
    mark_roots(&mut words[..n], roots);
}

/// Starts the walk: the roots sorted and seen, the first `k` of them in the best set and the queue; counts those.
fn start(
    asked: Asked<'_, '_>,
    roots: &[u32],
    k: usize,
    words: &mut [u32],
    floats: &mut [f32],
) -> Result<usize, NodeId>
    requires few { asked.counters.n ≤ 4096 }
    requires room { Room asked.counters.n words.old floats.old }
    requires roots { Roots asked.counters.n roots.now }
    requires le_k { 1 ≤ k }
    ensures { StartedIn (asked_apart asked.entry) asked.entry.counters.n k roots.now words.old floats.old words.new floats.new result }
{
    let n = asked.counters.n;
    let count = roots_found(asked, roots, k, words, floats)?;
    mark_all(n, roots, words);
    let m = table::fewer(k, count);
    enter(n, words, floats, m);
    Ok(m)
}

/// Expands the nodes of the queue, `m` of them at first, until none is left; counts the takings.
fn go_on(
    asked: Asked<'_, '_>,
    graph: &[u32],
    index_size: usize,
    words: &mut [u32],
    floats: &mut [f32],
    m: usize,
) -> Result<usize, NodeId>
    requires few { asked.counters.n ≤ 4096 }
    requires rows { Rows asked.counters.n graph.now index_size }
    requires room { Room asked.counters.n words.old floats.old }
    requires queue_sound { QueueSound asked.counters.n words.old m }
    requires best_sound { BestSound asked.counters.n words.old floats.old m }
    requires le_m { (1 ≤ m) × (m ≤ 64) }
    ensures { (worked : ℕ) → WalkedIn (walk (asked_apart asked.entry) (graph_row asked.entry.counters.n index_size graph.now) asked.entry.counters.n (walk_in asked.entry.counters.n words.old floats.old m m 0 worked)) asked.entry.counters.n m words.old floats.old words.new floats.new result }
{
    let mut takings: usize = 0;
    let mut tail = m;
    while takings < tail {
        tail = expand::expand(asked, graph, index_size, words, floats, m, takings, tail)?;
        takings += 1;
    }
    Ok(takings)
}

/// The whole walk (hora's `search`): counts the takings, and leaves the best set in its area of scratch.
pub fn walk(
    asked: Asked<'_, '_>,
    graph: &[u32],
    index_size: usize,
    roots: &[u32],
    k: usize,
    words: &mut [u32],
    floats: &mut [f32],
) -> Result<usize, NodeId>
    requires few { asked.counters.n ≤ 4096 }
    requires rows { Rows asked.counters.n graph.now index_size }
    requires roots { Roots asked.counters.n roots.now }
    requires room { Room asked.counters.n words.old floats.old }
    requires le_k { 1 ≤ k }
    ensures { WalkedIn (search_of (asked_apart asked.entry) (graph_row asked.entry.counters.n index_size graph.now) asked.entry.counters.n k roots.now) asked.entry.counters.n (min k (length roots.now)) words.old floats.old words.new floats.new result }
{
    let m = start(asked, roots, k, words, floats)?;
    go_on(asked, graph, index_size, words, floats, m)
}
