// Visited pairs: a bit for each pair of nodes, in the words of a lent slice from a place on.
#![tactic(auto)]

ghost use Rattle.std.specs.Prelude.{◌≡◌, Bool, List, ◌+◌, ◌≤◌, ◌<◌, length};
ghost use Rattle.rules.specs.Descent.{is_visited, visit, unvisit};
ghost use Rattle.visits.specs.Marks.{marks, Holds, Marked, PairAt};

use rules::NodeId;

// The place of the bit of a pair.
fn pair_at(n: usize, i: NodeId, j: NodeId) -> usize
    requires { (n ≤ 1024) × (i.0 < n) × (j.0 < n) }
    ensures { PairAt n i.0 j.0 result }
{
    i.0 as usize * n + j.0 as usize
}

/// Whether the pair (i, j) is visited (hora's `visited_id.contains`).
pub fn is_visited(words: &[u32], base: usize, n: usize, i: NodeId, j: NodeId) -> bool
    requires { (n ≤ 1024) × (i.0 < n) × (j.0 < n) × (length words.now ≡ base + marks n) }
    ensures { (flags : List Bool) → Holds base n flags words.now → result ≡ is_visited n i.0 j.0 flags }
{
    let p = pair_at(n, i, j);
    bits::bit_at(&words[base..], p)
}

/// Marks the pair (i, j) as visited, that way round (hora's `visited_id.insert`).
pub fn visit(words: &mut [u32], base: usize, n: usize, i: NodeId, j: NodeId)
    requires { (n ≤ 1024) × (i.0 < n) × (j.0 < n) × (length words.old ≡ base + marks n) }
    ensures { Marked base n (visit n i.0 j.0) words.old words.new }
{
    let p = pair_at(n, i, j);
    bits::set_bit(&mut words[base..], p);
}

/// Takes the mark of the pair (i, j) away, that way round (hora's `visited_id.remove`).
pub fn unvisit(words: &mut [u32], base: usize, n: usize, i: NodeId, j: NodeId)
    requires { (n ≤ 1024) × (i.0 < n) × (j.0 < n) × (length words.old ≡ base + marks n) }
    ensures { Marked base n (unvisit n i.0 j.0) words.old words.new }
{
    let p = pair_at(n, i, j);
    bits::clear_bit(&mut words[base..], p);
}
