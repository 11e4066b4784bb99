// How the orders of the sets came out: the lists that each ended in, counted where they differ.
ghost use Rattle.std.specs.Prelude.{◌≡◌};
ghost use Rattle.relay_orders.specs.Tally.{unfilled_lists, no_order, apart_by, with_set, with_order};

/// Lists of a relay, in the front.
#[derive(Clone, Copy)]
pub struct Lists {
    pub nodes: [u32; 24],
    pub dists: [f32; 24],
}

/// The lists after a close, and how many calls were refused on the way.
#[derive(Clone, Copy)]
pub struct Outcome {
    pub lists: Lists,
    pub refused: u32,
}

/// The sets and orders run, the orders whose lists differ from those of their set's first, and the calls refused.
#[derive(Clone, Copy, Debug, Default, PartialEq, Eq)]
pub struct Tally {
    pub sets: u32,
    pub orders: u32,
    pub differ: u32,
    pub refused: u32,
}

/// Unfilled lists of a game of `n` nodes.
#[tactic(auto, unfolding(crate::specs::Tally::unfilled_lists))]
pub fn unfilled(n: u32) -> Lists
    ensures { result ≡ unfilled_lists n }
{
    Lists {
        nodes: [n; 24],
        dists: [rows::EMPTY; 24],
    }
}

/// No order yet.
pub fn none() -> Tally
    ensures { result ≡ no_order }
{
    Tally::default()
}

// 1 where the lists differ, and 0 where they are the same.
#[tactic(auto, unfolding(crate::specs::Tally::apart_by))]
fn differ(a: Lists, b: Lists) -> u32
    ensures { result ≡ apart_by a b }
{
    if states::same_words(&a.nodes, &b.nodes) && states::same_floats(&a.dists, &b.dists) {
        0
    } else {
        1
    }
}

/// One set more.
#[tactic(auto, unfolding(crate::specs::Tally::with_set))]
pub fn with_set(t: Tally) -> Tally
    ensures { result ≡ with_set t }
{
    Tally {
        sets: t.sets.wrapping_add(1),
        ..t
    }
}

/// One order more of a set whose first ended in `first`.
#[tactic(auto, unfolding(crate::specs::Tally::with_order))]
pub fn with_order(t: Tally, first: Lists, e: Outcome) -> Tally
    ensures { result ≡ with_order t first e }
{
    Tally {
        orders: t.orders.wrapping_add(1),
        differ: t.differ.wrapping_add(differ(first, e.lists)),
        refused: t.refused.wrapping_add(e.refused),
        ..t
    }
}
