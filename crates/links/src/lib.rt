// Step 5 of build, the reverse links: the n times `index_size` slots are a flat list of entries in two slices.
#![tactic(auto)]

ghost use Rattle.std.specs.Prelude.{◌≡◌, ◌*◌, ◌≤◌, ◌<◌, length, get_or};
ghost use Rattle.rules.specs.Loops.{has, part};
ghost use Rattle.rules.specs.Lists.{entries, nodes_of};
ghost use Rattle.rules.specs.Rows.{live, empty_slot};
ghost use Rattle.rules.specs.Build.{slot_read, link_back, link};
ghost use Rattle.metrics.specs.Counters.{between};
ghost use Rattle.offers.specs.Sound.{Sound};
ghost use Rattle.links.specs.Links.{Room, Linked, links_of, links_all};

use metrics::Counters;
use rules::{Neighbor, NodeId, Slot};

// Whether `v` is in the live part of row `q`.
fn is_linked(
    n: usize,
    index_size: usize,
    nodes: &[u32],
    dists: &[f32],
    q: NodeId,
    v: NodeId,
) -> bool
    requires q_lt_n { (q.0 < n) × (n ≤ 4096) × (index_size ≤ 64) }
    requires index_size_in_bounds { (n * index_size ≤ length nodes.now) × (n * index_size ≤ length dists.now) }
    ensures { result ≡ has v.0 (nodes_of (live (part index_size q.0 (entries (n * index_size) nodes.now dists.now)))) }
{
    let row = q.0 as usize;
    let from = row * index_size;
    let to = from + index_size;
    let len = rows::live_len(&dists[from..to], index_size);
    table::has(&nodes[from..to], len, v)
}

// Offers `v` to the row of the entry `e` that was read in a slot, unless it is in the row's live part.
fn link_back(
    counters: Counters<'_>,
    threshold: f32,
    index_size: usize,
    nodes: &mut [u32],
    dists: &mut [f32],
    pool_nodes: &mut [u32],
    pool_dists: &mut [f32],
    v: NodeId,
    e: Neighbor,
)
    requires within { (v.0 < counters.n) × (e.node.0 < counters.n) × Sound counters.n (entries (counters.n * index_size) nodes.old dists.old) }
    requires room { Room counters.n index_size nodes.old dists.old pool_nodes.old pool_dists.old }
    ensures { Linked counters.entry.n index_size (link_back (between counters.entry) threshold index_size v.0 e (entries (counters.entry.n * index_size) nodes.old dists.old)) nodes.new dists.new }
{
    let q = e.node;
    if is_linked(counters.n, index_size, nodes, dists, q, v) {
        return;
    }
    let row = q.0 as usize;
    let from = row * index_size;
    let to = from + index_size;
    let given = Neighbor {
        node: v,
        distance: e.distance,
    };
    offers::offer(
        counters,
        threshold,
        index_size,
        &mut nodes[from..to],
        &mut dists[from..to],
        pool_nodes,
        pool_dists,
        given,
    );
}

// The slot that link `i` of node `v` reads: i + v. No other function knows which it is.
fn slot_read(index_size: usize, v: NodeId, i: usize) -> Slot
    requires { (v.0 < 4096) × (i < index_size) × (index_size ≤ 64) }
    ensures { result.0 ≡ slot_read index_size v.0 i }
{
    let first = v.0 as usize;
    Slot(i + first)
}

// The entry that stands in a slot.
fn entry_in(n: usize, index_size: usize, nodes: &[u32], dists: &[f32], slot: Slot) -> Neighbor
    requires { (slot.0 < n * index_size) × (n * index_size ≤ length nodes.now) × (n * index_size ≤ length dists.now) }
    ensures { result ≡ get_or (entries (n * index_size) nodes.now dists.now) slot.0 (empty_slot 0) }
{
    lists::entry_at(nodes, dists, slot.0)
}

// Link `i` of node `v`: an empty slot links nothing.
fn link(
    counters: Counters<'_>,
    threshold: f32,
    index_size: usize,
    nodes: &mut [u32],
    dists: &mut [f32],
    pool_nodes: &mut [u32],
    pool_dists: &mut [f32],
    v: NodeId,
    i: usize,
)
    requires within { (v.0 < counters.n) × (i < index_size) × Sound counters.n (entries (counters.n * index_size) nodes.old dists.old) }
    requires room { Room counters.n index_size nodes.old dists.old pool_nodes.old pool_dists.old }
    ensures { Linked counters.entry.n index_size (link (between counters.entry) threshold index_size v.0 i (entries (counters.entry.n * index_size) nodes.old dists.old)) nodes.new dists.new }
{
    let slot = slot_read(index_size, v, i);
    let e = entry_in(counters.n, index_size, nodes, dists, slot);
    if e.distance == rows::EMPTY {
        return;
    }
    link_back(
        counters, threshold, index_size, nodes, dists, pool_nodes, pool_dists, v, e,
    );
}

// The links of node `v` (hora's `inter_insert`).
fn link_node(
    counters: Counters<'_>,
    threshold: f32,
    index_size: usize,
    nodes: &mut [u32],
    dists: &mut [f32],
    pool_nodes: &mut [u32],
    pool_dists: &mut [f32],
    v: NodeId,
)
    requires within { (v.0 < counters.n) × Sound counters.n (entries (counters.n * index_size) nodes.old dists.old) }
    requires room { Room counters.n index_size nodes.old dists.old pool_nodes.old pool_dists.old }
    ensures { Linked counters.entry.n index_size (links_of (between counters.entry) threshold index_size v.0 (entries (counters.entry.n * index_size) nodes.old dists.old)) nodes.new dists.new }
{
    for i in 0..index_size {
        link(
            counters, threshold, index_size, nodes, dists, pool_nodes, pool_dists, v, i,
        );
    }
}

/// Step 5: the reverse links of every node, rising, among n times `index_size` slots; the pool has a place for a row and one offer more
/// (hora's `inter_insert`, called by `link_each_nodes`).
pub fn link_all(
    counters: Counters<'_>,
    threshold: f32,
    index_size: usize,
    nodes: &mut [u32],
    dists: &mut [f32],
    pool_nodes: &mut [u32],
    pool_dists: &mut [f32],
)
    requires within { Sound counters.n (entries (counters.n * index_size) nodes.old dists.old) }
    requires room { Room counters.n index_size nodes.old dists.old pool_nodes.old pool_dists.old }
    ensures { Linked counters.entry.n index_size (links_all (between counters.entry) counters.entry.n threshold index_size (entries (counters.entry.n * index_size) nodes.old dists.old)) nodes.new dists.new }
{
    for v in 0..counters.n {
        let node = NodeId(v as u32);
        link_node(
            counters, threshold, index_size, nodes, dists, pool_nodes, pool_dists, node,
        );
    }
}
