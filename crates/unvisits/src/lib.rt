// The pairs of kept new members, unvisited.
#![tactic(auto)]

ghost use Rattle.std.specs.Prelude.{◌≡◌, ◌+◌, ◌*◌, ◌≤◌, ◌<◌, length};
ghost use Rattle.rules.specs.Loops.{through};
ghost use Rattle.rules.specs.Descent.{unvisit};
ghost use Rattle.visits.specs.Marks.{marks, Marked};
ghost use Rattle.passes.specs.Passes.{Below};
ghost use Rattle.unvisits.specs.Unvisits.{unvisit_each, News};

use rules::NodeId;

// Takes the marks of the pairs (i, v) away, v each of `vs`.
fn unvisit_row(words: &mut [u32], base: usize, n: usize, i: NodeId, vs: &[u32])
    requires { (n ≤ 1024) × (i.0 < n) × (length words.old ≡ base + marks n) × Below n vs.now }
    ensures { Marked base n (through (unvisit n i.0) vs.now) words.old words.new }
{
    for &v in vs {
        let v = NodeId(v);
        visits::unvisit(words, base, n, i, v);
    }
}

/// Takes the marks of each node's kept new pairs away, that way round only; the new lists stand in contexts of 260 words.
pub fn unvisit_all(words: &mut [u32], base: usize, n: usize, contexts: &[u32])
    requires { (n ≤ 1024) × (length words.old ≡ base + marks n) × News n contexts.now }
    ensures { Marked base n (unvisit_each n contexts.now n) words.old words.new }
{
    for i in 0..n {
        let at = 260 * i;
        let from = at + 1;
        let to = from + contexts[at] as usize;
        unvisit_row(words, base, n, NodeId(i as u32), &contexts[from..to]);
    }
}
