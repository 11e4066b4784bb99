// Whether lists of entries in lent slices are well formed: ascending, and each entry a node with a distance that it may have.
#![tactic(auto)]

ghost use Rattle.std.specs.Prelude.{◌≡◌, ◌*◌, ◌≤◌, length};
ghost use Rattle.rules.specs.Lists.{entries};
ghost use Rattle.rules.specs.Offers.{entry_formed, entries_formed, ascending, list_formed, lists_formed};
ghost use Rattle.rules.specs.Places.{lists_in};

use rules::{Neighbor, NodeId};

/// Whether an entry is well formed: no node above `n`, node `n` exactly with the empty distance, all other distances fit.
#[tactic(auto, using(crate::proofs::Laws::entry_nan, std::proofs::lemmas::Bool::Decides::nat_tests), unfolding(rules::specs::Offers::entry_formed, rules::specs::Distance::fit))]
pub fn entry_formed(e: Neighbor, n: usize) -> bool
    ensures { result ≡ entry_formed n e }
{
    // A NaN has no bits to ask for, and is neither fit nor empty.
    if e.distance.is_nan() {
        return false;
    }
    let bits = e.distance.to_bits();
    let v = e.node.0 as usize;
    if v == n {
        return bits == 0x7F7F_FFFF;
    }
    v < n && bits <= 0x7F7F_FFFE
}

/// Whether each of the first `len` entries is well formed.
pub fn entries_formed(nodes: &[u32], dists: &[f32], len: usize, n: usize) -> bool
    requires { (len ≤ length nodes.now) × (len ≤ length dists.now) }
    ensures { result ≡ entries_formed n (entries len nodes.now dists.now) }
{
    nodes[..len].iter().zip(&dists[..len]).all(|(&v, &distance)| {
        let node = NodeId(v);
        entry_formed(Neighbor { node, distance }, n)
    })
}

/// Whether none of the first `len` entries precedes the one in front of it.
pub fn ascending(nodes: &[u32], dists: &[f32], len: usize) -> bool
    requires { (len ≤ length nodes.now) × (len ≤ length dists.now) }
    ensures { result ≡ ascending (entries len nodes.now dists.now) }
{
    for i in 1..len {
        let x = lists::entry_at(nodes, dists, i - 1);
        if neighbor::precedes(lists::entry_at(nodes, dists, i), x) {
            return false;
        }
    }
    true
}

/// Whether the list of the first `len` entries is well formed.
#[tactic(auto, unfolding(rules::specs::Offers::list_formed))]
pub fn list_formed(nodes: &[u32], dists: &[f32], len: usize, n: usize) -> bool
    requires { (len ≤ length nodes.now) × (len ≤ length dists.now) }
    ensures { result ≡ list_formed n (entries len nodes.now dists.now) }
{
    ascending(nodes, dists, len) && entries_formed(nodes, dists, len, n)
}

/// Whether `n` lists of `k` entries, one behind the other, are all well formed.
pub fn lists_formed(nodes: &[u32], dists: &[f32], n: usize, k: usize) -> bool
    requires { (n ≤ 4096) × (k ≤ 64) × (n * k ≤ length nodes.now) × (n * k ≤ length dists.now) }
    ensures { result ≡ lists_formed n (lists_in n k nodes.now dists.now) }
{
    for w in 0..n {
        let from = w * k;
        let to = from + k;
        if !list_formed(&nodes[from..to], &dists[from..to], k, n) {
            return false;
        }
    }
    true
}
