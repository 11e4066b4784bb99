// Ascending lists of entries, each in the front of two lent slices: node numbers in one, distances in the other.
#![tactic(auto)]

ghost use Rattle.std.specs.Prelude.{◌≡◌, ◌≤◌, ◌<◌, length, get_or};
ghost use Rattle.std.specs.Float.{nan};
ghost use Rattle.rules.specs.Lists.{neighbor};
ghost use Rattle.lists.specs.Lists.{hole, PlaceFound, PushedCut, Pushed, Popped, SortedIn};

use rules::{Neighbor, NodeId};

/// The entry at place `i`.
pub fn entry_at(nodes: &[u32], dists: &[f32], i: usize) -> Neighbor
    requires { (i < length nodes.now) × (i < length dists.now) }
    ensures { result ≡ neighbor (get_or nodes.now i 0) (get_or dists.now i nan) }
{
    Neighbor {
        node: NodeId(nodes[i]),
        distance: dists[i],
    }
}

/// The place of `e` in the list of the first `len` entries: how many stand in front of the first that `e` precedes.
pub fn place_of(nodes: &[u32], dists: &[f32], len: usize, e: Neighbor) -> usize
    requires { (len ≤ length nodes.now) × (len ≤ length dists.now) }
    ensures { PlaceFound nodes.now dists.now len e result }
{
    for i in 0..len {
        if neighbor::precedes(e, entry_at(nodes, dists, i)) {
            return i;
        }
    }
    len
}

// Moves what stands from `p` up to `last` up by one place, so that `p` is free; what stood at `last` is lost.
fn shift_up(nodes: &mut [u32], dists: &mut [f32], p: usize, last: usize)
    requires { (p ≤ last) × (last < length nodes.old) × (last < length dists.old) }
    ensures nodes_after { nodes.new ≡ hole p last nodes.old }
    ensures dists_after { dists.new ≡ hole p last dists.old }
{
    for i in (p..last).rev() {
        nodes[i + 1] = nodes[i];
        dists[i + 1] = dists[i];
    }
}

/// Pushes `e` in order into the list of the first `len` entries and keeps the least `k`: where `len` is `k`, the last is lost.
/// No place from `k` on is read or written. Returns the new length
/// (hora's `heap.push`, then `heap.pop` where there are more than `k`, in `build_knn_graph`).
pub fn push_cut(nodes: &mut [u32], dists: &mut [f32], len: usize, k: usize, e: Neighbor) -> usize
    requires { (len ≤ k) × (k ≤ length nodes.old) × (k ≤ length dists.old) }
    ensures { PushedCut nodes.old dists.old len k e nodes.new dists.new result }
{
    let p = place_of(nodes, dists, len, e);
    if k <= p {
        return len;
    }
    let last = len.min(k - 1);
    shift_up(nodes, dists, p, last);
    nodes[p] = e.node.0;
    dists[p] = e.distance;
    last + 1
}

/// Pushes `e` in order into the list of the first `len` entries, and returns the new length (hora's `heap.push`).
pub fn push(nodes: &mut [u32], dists: &mut [f32], len: usize, e: Neighbor) -> usize
    requires { (len < length nodes.old) × (len < length dists.old) }
    ensures { Pushed nodes.old dists.old len e nodes.new dists.new result }
{
    push_cut(nodes, dists, len, len + 1, e)
}

/// Takes the last entry off the list of the first `len` entries, zeroes its place, and returns the new length
/// (hora's `heap.pop`).
pub fn pop(nodes: &mut [u32], dists: &mut [f32], len: usize) -> usize
    requires { (1 ≤ len) × (len ≤ length nodes.old) × (len ≤ length dists.old) }
    ensures { Popped nodes.old dists.old len nodes.new dists.new result }
{
    let last = len - 1;
    nodes[last] = 0;
    dists[last] = 0.0;
    last
}

/// Sorts the first `len` entries in place: each is pushed in order into the list before it (hora's `sort` and `sort_unstable`).
pub fn sort(nodes: &mut [u32], dists: &mut [f32], len: usize)
    requires { (len ≤ length nodes.old) × (len ≤ length dists.old) }
    ensures { SortedIn nodes.old dists.old len nodes.new dists.new }
{
    for done in 0..len {
        let e = entry_at(nodes, dists, done);
        push(nodes, dists, done, e);
    }
}
