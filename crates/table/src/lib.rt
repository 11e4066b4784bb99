// Rows of the refusal table that several entries test, and the fewer of two counts.
#![tactic(auto)]

ghost use Rattle.std.specs.Prelude.{◌≡◌, [], ◌∷◌, ◌≤◌, ◌+◌, ◌<◌, min, length, take, SomeIff};
ghost use Rattle.rules.specs.Loops.{has};
ghost use Rattle.rules.specs.Numbers.{outside};
ghost use Rattle.rules.specs.Refusals.{decide, decision_of, row1, row2, row3, row7, first_bad_root};

use rules::{NodeId, Refusal};

/// Whether `x` is outside `low` to `high`.
#[tactic(auto, using(std::proofs::lemmas::Bool::Decides::nat_tests), unfolding(rules::specs::Numbers::outside))]
pub fn outside(low: usize, high: usize, x: usize) -> bool
    ensures { result ≡ outside low high x }
{
    !(low..=high).contains(&x)
}

/// The fewer of two counts.
pub fn fewer(a: usize, b: usize) -> usize
    ensures { result ≡ min a b }
{
    a.min(b)
}

/// Rows 1, 2 and 3: the dimension, n up to `most`, and the length of the lanes.
pub fn game(dimension: usize, most: usize, n: usize, lanes: usize) -> Result<(), Refusal>
    requires { most ≤ 4096 }
    ensures { decision_of result ≡ decide (row1 dimension ∷ row2 most n ∷ row3 dimension n lanes ∷ []) }
{
    if outside(1, 64, dimension) {
        return Err(Refusal::Dimension);
    }
    if outside(2, most, n) {
        return Err(Refusal::Nodes);
    }
    if lanes != n * dimension {
        return Err(Refusal::Lanes);
    }
    Ok(())
}

/// Whether node `v` is among the first `len` of `nodes`.
pub fn has(nodes: &[u32], len: usize, v: NodeId) -> bool
    requires { len ≤ length nodes.now }
    ensures { result ≡ has v.0 (take len nodes.now) }
{
    nodes[..len].contains(&v.0)
}

/// The first place of a root that is `n` or more or repeats an earlier one.
fn first_bad_root(n: usize, roots: &[u32]) -> Option<usize>
    ensures { let at = first_bad_root n roots.now in SomeIff result (at < length roots.now) at }
{
    for (i, &v) in roots.iter().enumerate() {
        if n <= v as usize || has(roots, i, NodeId(v)) {
            return Some(i);
        }
    }
    None
}

/// Row 7: the number of roots, and each root.
pub fn roots(n: usize, roots: &[u32]) -> Result<(), Refusal>
    ensures { decision_of result ≡ decide (row7 n roots.now ∷ []) }
{
    if outside(1, 64, roots.len()) {
        return Err(Refusal::Root(0));
    }
    if let Some(at) = first_bad_root(n, roots) {
        return Err(Refusal::Root(at));
    }
    Ok(())
}
