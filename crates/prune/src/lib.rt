// Step 3 of build: which entries stand in the way of which, and the choice of those that are kept.
#![tactic(auto)]

ghost use Rattle.std.specs.Prelude.{◌≡◌, ℕ, ◌+◌, ◌*◌, ◌≤◌, ◌<◌, length, get_or};
ghost use Rattle.std.specs.Float.Ieee.{lt};
ghost use Rattle.std.specs.Float.{nan};
ghost use Rattle.rules.specs.Loops.{any_of};
ghost use Rattle.rules.specs.Lists.{neighbor, entries};
ghost use Rattle.rules.specs.Build.{cosine, occludes};
ghost use Rattle.metrics.specs.Counters.{between};
ghost use Rattle.prune.specs.Chosen.{AllBelow, FourStand, Kept, Chosen};

use metrics::Counters;
use rules::{Neighbor, NodeId};

/// Whether the cosine of two stored distances and the distance between them is over the threshold; a NaN is not
/// (the test in hora's `prune_graph` and `inter_insert`).
#[tactic(auto, unfolding(rules::specs::Build::cosine))]
pub fn occludes(dp: f32, dr: f32, djk: f32, threshold: f32) -> bool
    ensures { result ≡ lt threshold (cosine dp dr djk) }
{
    let c = ((dp * dp + dr * dr) - djk * djk) / (2.0 * (dp * dr));
    c > threshold
}

// Whether the kept `r` occludes `p`, with `djk` between them; in step 5 an equal node does so too.
#[tactic(auto, unfolding(rules::specs::Build::occludes))]
fn stands_before(threshold: f32, equal_too: bool, p: Neighbor, r: Neighbor, djk: f32) -> bool
    ensures { result ≡ occludes (λ (i j : ℕ). djk) threshold equal_too p r }
{
    (equal_too && p.node.0 == r.node.0) || occludes(p.distance, r.distance, djk, threshold)
}

// Whether one of four kept entries occludes `p`: those from `i` on, or the last again where there are fewer. Four distances take little longer than one.
fn four_stand(
    counters: Counters<'_>,
    threshold: f32,
    equal_too: bool,
    nodes: &[u32],
    dists: &[f32],
    kept: usize,
    i: usize,
    p: Neighbor,
) -> bool
    requires within { (p.node.0 < counters.n) × AllBelow counters.n (entries kept nodes.now dists.now) }
    requires kept_in_bounds { (kept ≤ length nodes.now) × (kept ≤ length dists.now) × (i < kept) }
    ensures { FourStand (occludes (between counters.entry) threshold equal_too p) nodes.now dists.now kept i result }
{
    let a = lists::entry_at(nodes, dists, i);
    let b = lists::entry_at(nodes, dists, kernels::held(kept, i + 1));
    let c = lists::entry_at(nodes, dists, kernels::held(kept, i + 2));
    let d = lists::entry_at(nodes, dists, kernels::held(kept, i + 3));
    let apart = kernels::between4(counters, p.node, a.node, b.node, c.node, d.node);
    stands_before(threshold, equal_too, p, a, apart.a)
        || stands_before(threshold, equal_too, p, b, apart.b)
        || stands_before(threshold, equal_too, p, c, apart.c)
        || stands_before(threshold, equal_too, p, d, apart.d)
}

// Whether one of the first `kept` entries occludes `p`, four at a time.
fn by_four(
    counters: Counters<'_>,
    threshold: f32,
    equal_too: bool,
    nodes: &[u32],
    dists: &[f32],
    kept: usize,
    p: Neighbor,
) -> bool
    requires within { (p.node.0 < counters.n) × AllBelow counters.n (entries kept nodes.now dists.now) }
    requires kept_in_bounds { (kept ≤ length nodes.now) × (kept ≤ length dists.now) }
    ensures { result ≡ any_of (occludes (between counters.entry) threshold equal_too p) (entries kept nodes.now dists.now) }
{
    let mut i = 0;
    while i < kept {
        if four_stand(counters, threshold, equal_too, nodes, dists, kept, i, p) {
            return true;
        }
        i += 4;
    }
    false
}

// Whether one of the first `kept` entries occludes `p`, one by one.
fn one_by_one(
    counters: Counters<'_>,
    threshold: f32,
    equal_too: bool,
    nodes: &[u32],
    dists: &[f32],
    kept: usize,
    p: Neighbor,
) -> bool
    requires within { (p.node.0 < counters.n) × AllBelow counters.n (entries kept nodes.now dists.now) }
    requires kept_in_bounds { (kept ≤ length nodes.now) × (kept ≤ length dists.now) }
    ensures { result ≡ any_of (occludes (between counters.entry) threshold equal_too p) (entries kept nodes.now dists.now) }
{
    for i in 0..kept {
        let r = lists::entry_at(nodes, dists, i);
        let djk = counters.between(p.node, r.node);
        if stands_before(threshold, equal_too, p, r, djk) {
            return true;
        }
    }
    false
}

// Whether one of the first `kept` entries occludes `p`. With few lanes a distance is cheap, and the first that occludes ends the row sooner.
fn occluded(
    counters: Counters<'_>,
    threshold: f32,
    equal_too: bool,
    nodes: &[u32],
    dists: &[f32],
    kept: usize,
    p: Neighbor,
) -> bool
    requires within { (p.node.0 < counters.n) × AllBelow counters.n (entries kept nodes.now dists.now) }
    requires kept_in_bounds { (kept ≤ length nodes.now) × (kept ≤ length dists.now) }
    ensures { result ≡ any_of (occludes (between counters.entry) threshold equal_too p) (entries kept nodes.now dists.now) }
{
    if counters.dimension < 16 {
        one_by_one(counters, threshold, equal_too, nodes, dists, kept, p)
    } else {
        by_four(counters, threshold, equal_too, nodes, dists, kept, p)
    }
}

// Keeps `p` behind the first `kept` entries unless one of them occludes it.
fn keep(
    counters: Counters<'_>,
    threshold: f32,
    equal_too: bool,
    nodes: &mut [u32],
    dists: &mut [f32],
    kept: usize,
    index_size: usize,
    p: Neighbor,
) -> usize
    requires within { (p.node.0 < counters.n) × AllBelow counters.n (entries kept nodes.old dists.old) }
    requires kept_lt_index_size { (kept < index_size) × (index_size ≤ length nodes.old) × (index_size ≤ length dists.old) }
    ensures { Kept (occludes (between counters.entry) threshold equal_too) index_size p nodes.old dists.old kept nodes.new dists.new result }
{
    if occluded(counters, threshold, equal_too, nodes, dists, kept, p) {
        return kept;
    }
    nodes[kept] = p.node.0;
    dists[kept] = p.distance;
    kept + 1
}

/// Writes the chosen of the first `len` entries, which are sorted, to the front of `nodes` and `dists`, at most `index_size`, and
/// returns how many (the loop of hora's `prune_graph` and `inter_insert`).
pub fn choose(
    counters: Counters<'_>,
    threshold: f32,
    equal_too: bool,
    from_nodes: &[u32],
    from_dists: &[f32],
    len: usize,
    nodes: &mut [u32],
    dists: &mut [f32],
    index_size: usize,
) -> usize
    requires within { AllBelow counters.n (entries len from_nodes.now from_dists.now) }
    requires len_in_bounds { (len ≤ length from_nodes.now) × (len ≤ length from_dists.now) }
    requires index_size_in_bounds { (index_size ≤ length nodes.old) × (index_size ≤ length dists.old) }
    ensures { Chosen (occludes (between counters.entry) threshold equal_too) index_size (entries len from_nodes.now from_dists.now) nodes.old dists.old nodes.new dists.new result }
{
    let mut kept = 0;
    for i in 0..len {
        if index_size <= kept {
            return kept;
        }
        let p = lists::entry_at(from_nodes, from_dists, i);
        kept = keep(
            counters, threshold, equal_too, nodes, dists, kept, index_size, p,
        );
    }
    kept
}
