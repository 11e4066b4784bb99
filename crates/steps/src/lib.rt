// The steps of an offer to an ascending list in the front of two lent slices: one look at the last, and the four with none in between.
#![tactic(auto)]

ghost use Rattle.std.specs.Prelude.{◌≡◌, ◌≤◌, length};
ghost use Rattle.rules.specs.Lists.{entries};
ghost use Rattle.rules.specs.Offers.{look};
ghost use Rattle.steps.specs.Steps.{OfferedTo};

use rules::Neighbor;

/// Whether an offer of `e` to the list of the first `len` entries is taken up: unless its distance is greater than the last's
/// (hora's `update`, its test of the heap's top).
pub fn look(nodes: &[u32], dists: &[f32], len: usize, e: Neighbor) -> bool
    requires { (1 ≤ len) × (len ≤ length nodes.now) × (len ≤ length dists.now) }
    ensures { result ≡ look e (entries len nodes.now dists.now) }
{
    let farthest = dists[len - 1];
    !(farthest < e.distance)
}

/// Offers `e` to the list of the first `k` entries: look, push, measure, pop, with none in between. No place from `k` on is read or
/// written (hora's `update`, one half).
pub fn offer(nodes: &mut [u32], dists: &mut [f32], k: usize, e: Neighbor)
    requires { (1 ≤ k) × (k ≤ length nodes.old) × (k ≤ length dists.old) }
    ensures { OfferedTo nodes.old dists.old k e nodes.new dists.new }
{
    if look(nodes, dists, k, e) {
        lists::push_cut(nodes, dists, k, k, e);
    }
}
