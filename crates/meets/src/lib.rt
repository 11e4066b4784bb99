// One pair of an iteration meets: an update of both lists, and marks both ways, in a descent's state.
#![tactic(auto)]

ghost use Rattle.std.specs.Prelude.{◌*◌, ◌≤◌, ◌<◌, length};
ghost use Rattle.rules.specs.Descent.{pair, meet};
ghost use Rattle.metrics.specs.Counters.{between};
ghost use Rattle.meets.specs.Meets.{OfferedIn, Updated, Game, Does};

use metrics::Counters;
use rules::{Neighbor, NodeId};

// Offers `e` to the list of node `u`, one of `n` lists of `k` entries.
fn offer_to(nodes: &mut [u32], dists: &mut [f32], n: usize, k: usize, u: NodeId, e: Neighbor)
    requires { (u.0 < n) × (n ≤ 1024) × (1 ≤ k) × (k ≤ 64) × (n * k ≤ length nodes.old) × (n * k ≤ length dists.old) }
    ensures { OfferedIn n k u.0 e nodes.old dists.old nodes.new dists.new }
{
    let from = u.0 as usize * k;
    let to = from + k;
    steps::offer(&mut nodes[from..to], &mut dists[from..to], k, e);
}

/// Offers each of two nodes to the other's list, unless they are equal, and returns 1 where they are not (hora's `update`).
pub fn update(
    counters: Counters<'_>,
    k: usize,
    u: NodeId,
    v: NodeId,
    nodes: &mut [u32],
    dists: &mut [f32],
) -> usize
    requires { Game counters.dimension counters.n k counters.lanes.now nodes.old dists.old × (u.0 < counters.n) × (v.0 < counters.n) }
    ensures { Updated (between counters.entry) counters.entry.n k u.0 v.0 nodes.old dists.old nodes.new dists.new result }
{
    if u.0 == v.0 {
        return 0;
    }
    let n = counters.n;
    let distance = counters.between(u, v);
    offer_to(nodes, dists, n, k, u, Neighbor { node: v, distance });
    offer_to(nodes, dists, n, k, v, Neighbor { node: u, distance });
    1
}

/// Updates the lists of two nodes and marks them visited both ways; returns the cost so far with this pair's.
pub fn meet(
    counters: Counters<'_>,
    k: usize,
    u: NodeId,
    v: NodeId,
    words: &mut [u32],
    floats: &mut [f32],
    cost: usize,
) -> usize
    requires { Game counters.dimension counters.n k counters.lanes.now words.old floats.old × (u.0 < counters.n) × (v.0 < counters.n) × (cost ≤ 1099511627776) }
    ensures { Does counters.entry.n k 1 (meet (between counters.entry) counters.entry.n k (pair u.0 v.0)) words.old floats.old cost words.new floats.new result }
{
    let n = counters.n;
    let one = update(counters, k, u, v, words, floats);
    let base = n * k + 260 * n;
    visits::visit(words, base, n, u, v);
    visits::visit(words, base, n, v, u);
    cost + one
}
