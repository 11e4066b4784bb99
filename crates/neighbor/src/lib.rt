// The order of entries.
#![tactic(auto)]

ghost use Rattle.std.specs.Prelude.{◌≡◌};
ghost use Rattle.rules.specs.Distance.{before};

use rules::Neighbor;

/// Whether `a` stands before `b`: by distance, and where the distances are equal, by node number
/// (hora's `Neighbor::cmp`, which leaves entries of equal distance in no order).
#[tactic(auto, unfolding(rules::specs::Distance::before))]
pub fn precedes(a: Neighbor, b: Neighbor) -> bool
    ensures { result ≡ before a b }
{
    // As one expression with `||` and `&&` the compiler makes no branch of the second test, and a sort takes a tenth longer.
    if a.distance < b.distance {
        return true;
    }
    if a.distance == b.distance {
        return a.node.0 < b.node.0;
    }
    false
}
