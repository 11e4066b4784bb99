// Step 1 of build: the distances of a node to others, and its exact list.
#![tactic(auto)]

ghost use Rattle.std.specs.Prelude.{◌≡◌, map, reverse, ◌+◌, ◌*◌, ◌≤◌, ◌<◌, leb, length, take};
ghost use Rattle.rules.specs.Loops.{over};
ghost use Rattle.rules.specs.Lists.{entries, place};
ghost use Rattle.metrics.specs.Counters.{between};
ghost use Rattle.neighbor.specs.Holdable.{Holdable};
ghost use Rattle.lists.specs.All.{All};
ghost use Rattle.lists.specs.Ascending.{AllHoldable, Ascending};
ghost use Rattle.exact.specs.Exact.{distances_from, always, apart_in, HoldsRow, farthest, PutEight, Eight, Offered, Considered, Gathered, Listed, Exact};

use metrics::Counters;
use rules::{Neighbor, NodeId};

/// Writes the distances of `q` to the nodes 0, 1, .., n - 1 to the first n places of `out`.
pub fn distances_from(counters: Counters<'_>, q: NodeId, out: &mut [f32])
    requires { (q.0 < counters.n) × (counters.n ≤ length out.old) × (counters.n ≤ 4096) }
    ensures { out.new ≡ over counters.entry.n (distances_from (between counters.entry) counters.entry.n q.0) out.old }
{
    for p in 0..counters.n {
        out[p] = counters.between(q, NodeId(p as u32));
    }
}

// Writes what eight totals carry to the eight places from `at` on.
fn put_eight(rows: &mut [f32], at: usize, totals: [f32; 8])
    requires { at + 8 ≤ length rows.old }
    ensures { PutEight rows.old at totals 8 rows.new }
{
    for (t, &total) in totals.iter().enumerate() {
        rows[at + t] = kernels::carried(total);
    }
}

/// Writes the distances of the eight nodes from `base` on to the nodes 0, 1, .., n - 1: those of node i from place 8i on.
/// Where there are fewer than eight, the further places hold distances that nothing asks for.
pub fn distances_eight(counters: Counters<'_>, base: usize, rows: &mut [f32])
    requires { (counters.dimension ≤ 64) × (base < counters.n) × (counters.n * 8 ≤ length rows.old) × (counters.n ≤ 4096) }
    ensures { Eight (between counters.entry) counters.entry.n base counters.entry.n rows.new }
{
    let block = kernels::block_of(counters, base);
    for i in 0..counters.n {
        let y = counters.lanes_of(NodeId(i as u32));
        let totals = kernels::totals8(y, &block);
        put_eight(rows, i * 8, totals);
    }
}

/// Writes the distances of `q` to the first `len` of `nodes` to the first `len` places of `dists`, and so makes entries of them.
pub fn distances_to(counters: Counters<'_>, q: NodeId, nodes: &[u32], len: usize, dists: &mut [f32])
    requires within { (q.0 < counters.n) × All (λ v. v < counters.n) (take len nodes.now) }
    requires len_in_bounds { (len ≤ length nodes.now) × (len ≤ length dists.old) }
    ensures { dists.new ≡ over len (map (between counters.entry q.0) (take len nodes.now)) dists.old }
{
    for (i, &node) in nodes[..len].iter().enumerate() {
        dists[i] = counters.between(q, NodeId(node));
    }
}

// Whether `e` goes behind the least `k` of the list of the first `len` entries: one look at the last spares most pushes.
fn goes_behind(nodes: &[u32], dists: &[f32], len: usize, k: usize, e: Neighbor) -> bool
    requires le_k { (1 ≤ k) × (len ≤ k) × (len ≤ length nodes.now) × (len ≤ length dists.now) }
    requires holdable { Holdable e.distance × AllHoldable (entries len nodes.now dists.now) × Ascending (entries len nodes.now dists.now) }
    ensures { result ≡ leb k (place e (entries len nodes.now dists.now)) }
{
    if len < k {
        return false;
    }
    let last = Neighbor {
        node: NodeId(nodes[len - 1]),
        distance: dists[len - 1],
    };
    !neighbor::precedes(e, last)
}

// Pushes node `i` at the distance `x` into the list of the first `len` entries, and keeps the least `k`; `q` itself is passed over.
fn offer(
    x: f32,
    q: NodeId,
    i: usize,
    nodes: &mut [u32],
    dists: &mut [f32],
    len: usize,
    k: usize,
) -> usize
    requires i_bound { (i < 4096) × Holdable x }
    requires le_k { (1 ≤ k) × (len ≤ k) × (k ≤ length nodes.old) × (k ≤ length dists.old) }
    requires all_holdable { AllHoldable (entries len nodes.old dists.old) × Ascending (entries len nodes.old dists.old) }
    ensures { Offered (always x) q.0 i k nodes.old dists.old len nodes.new dists.new result }
{
    if i == q.0 as usize {
        return len;
    }
    let e = Neighbor {
        node: NodeId(i as u32),
        distance: x,
    };
    if goes_behind(nodes, dists, len, k, e) {
        return len;
    }
    lists::push_cut(nodes, dists, len, k, e)
}

// The distance that nothing farther than it can be among the least `k`: the last one's, and the mark of an empty slot where there are fewer.
#[tactic(auto, unfolding(crate::specs::Exact::farthest))]
fn farthest(dists: &[f32], len: usize, k: usize) -> f32
    requires { (1 ≤ k) × (len ≤ k) × (len ≤ length dists.now) }
    ensures { result ≡ farthest dists.now len k }
{
    if len < k { f32::MAX } else { dists[len - 1] }
}

// A list's length, and its farthest distance as `farthest` gives it.
#[derive(Clone, Copy)]
struct Kept {
    len: usize,
    bound: f32,
}

// Offers node `i` at the distance `x` unless it is beyond `bound`: one comparison spares most offers.
fn consider(
    x: f32,
    bound: f32,
    q: NodeId,
    i: usize,
    nodes: &mut [u32],
    dists: &mut [f32],
    len: usize,
    k: usize,
) -> Kept
    requires i_bound { (i < 4096) × Holdable x × (bound ≡ farthest dists.old len k) }
    requires le_k { (1 ≤ k) × (len ≤ k) × (k ≤ length nodes.old) × (k ≤ length dists.old) }
    requires all_holdable { AllHoldable (entries len nodes.old dists.old) × Ascending (entries len nodes.old dists.old) }
    ensures { Considered (always x) q.0 i k nodes.old dists.old len nodes.new dists.new result.len result.bound }
{
    if bound < x {
        return Kept { len, bound };
    }
    let len = offer(x, q, i, nodes, dists, len, k);
    let bound = farthest(dists, len, k);
    Kept { len, bound }
}

// Gathers the least `init_k` of the other nodes, nearest first, by the distances in `row`, one in each `step` places from `at` on.
fn gather(
    row: &[f32],
    step: usize,
    at: usize,
    n: usize,
    q: NodeId,
    init_k: usize,
    nodes: &mut [u32],
    dists: &mut [f32],
) -> usize
    requires holds_row { HoldsRow step at row.now n × (n ≤ 4096) × (step ≤ 8) × (at < step) × (n * step ≤ length row.now) }
    requires le_init_k { (1 ≤ init_k) × (init_k ≤ length nodes.old) × (init_k ≤ length dists.old) }
    ensures { Gathered (apart_in step at row.now) n init_k q.0 nodes.old dists.old nodes.new dists.new result }
{
    let mut len = 0;
    let mut bound = farthest(dists, 0, init_k);
    for i in 0..n {
        let kept = consider(row[i * step + at], bound, q, i, nodes, dists, len, init_k);
        len = kept.len;
        bound = kept.bound;
    }
    len
}

// Writes the first `len` of `nodes` to the front of `out`, the last first.
#[tactic(auto, using(std::proofs::lemmas::Slice::overwrites), unfolding(rules::specs::Loops::over))]
fn turn_round(nodes: &[u32], len: usize, out: &mut [u32])
    requires { (len ≤ length nodes.now) × (len ≤ length out.old) }
    ensures { out.new ≡ over len (reverse (take len nodes.now)) out.old }
{
    buffers::copy_all(&nodes[..len], &mut out[..len]);
    out[..len].reverse();
}

/// Writes the least `init_k` of the other nodes, farthest first, to the front of `out`, by the distances of `q` in `row`, and returns
/// how many there are. It works in `nodes` and `dists` (`init_k` places each).
pub fn list_of(
    row: &[f32],
    step: usize,
    at: usize,
    n: usize,
    q: NodeId,
    init_k: usize,
    nodes: &mut [u32],
    dists: &mut [f32],
    out: &mut [u32],
) -> usize
    requires holds_row { HoldsRow step at row.now n × (n ≤ 4096) × (step ≤ 8) × (at < step) × (n * step ≤ length row.now) × (q.0 < n) }
    requires le_init_k { (1 ≤ init_k) × (init_k ≤ length nodes.old) × (init_k ≤ length dists.old) × (init_k ≤ length out.old) }
    ensures { Listed (apart_in step at row.now) n init_k q.0 nodes.old dists.old out.old nodes.new dists.new out.new result }
{
    let len = gather(row, step, at, n, q, init_k, nodes, dists);
    turn_round(nodes, len, out);
    len
}

/// Writes the exact list of `q`, the least `init_k` of the other nodes, farthest first, to the front of `out`, and returns how many
/// there are (hora's `build_knn_graph`, one turn). It works in `row` (n places), `nodes` and `dists` (`init_k` places each).
pub fn exact_list(
    counters: Counters<'_>,
    q: NodeId,
    init_k: usize,
    row: &mut [f32],
    nodes: &mut [u32],
    dists: &mut [f32],
    out: &mut [u32],
) -> usize
    requires within { (q.0 < counters.n) × (counters.n ≤ length row.old) × (counters.n ≤ 4096) }
    requires le_init_k { (1 ≤ init_k) × (init_k ≤ length nodes.old) × (init_k ≤ length dists.old) × (init_k ≤ length out.old) }
    ensures { Exact (between counters.entry) counters.entry.n init_k q.0 row.old nodes.old dists.old out.old row.new nodes.new dists.new out.new result }
{
    distances_from(counters, q, row);
    list_of(row, 1, 0, counters.n, q, init_k, nodes, dists, out)
}
