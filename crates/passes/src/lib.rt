// The seven passes of an iteration over each node's context.
#![tactic(auto)]

ghost use Rattle.std.specs.Prelude.{◌≡◌, ◌*◌, ◌≤◌, ◌<◌, length, drop};
ghost use Rattle.rules.specs.Loops.{through};
ghost use Rattle.rules.specs.Descent.{meet, meet_all, cross, passes};
ghost use Rattle.rules.specs.DescentPlaces.{context_in};
ghost use Rattle.metrics.specs.Counters.{between};
ghost use Rattle.meets.specs.Meets.{Game, Does};
ghost use Rattle.passes.specs.Passes.{Short, Members, MembersOf, Contexted, joins, one_pair, row_pairs, first_of, Within, pass_pairs, early_pairs, late_pairs, contexts_in, ManyContexted};

use metrics::Counters;
use rules::NodeId;

// Whether `u` meets `v`: always, or only where the smaller node comes first.
#[tactic(auto, unfolding(crate::specs::Passes::joins))]
fn joins(rising: bool, u: NodeId, v: NodeId) -> bool
    ensures { result ≡ joins rising u.0 v.0 }
{
    !rising || u.0 < v.0
}

// A pair meets, or is passed over.
fn meet_one(
    counters: Counters<'_>,
    k: usize,
    rising: bool,
    u: NodeId,
    v: NodeId,
    words: &mut [u32],
    floats: &mut [f32],
    cost: usize,
) -> usize
    requires { Game counters.dimension counters.n k counters.lanes.now words.old floats.old × (u.0 < counters.n) × (v.0 < counters.n) × (cost ≤ 1099511627776) }
    ensures { Does counters.entry.n k 1 (through (meet (between counters.entry) counters.entry.n k) (one_pair rising u.0 v.0)) words.old floats.old cost words.new floats.new result }
{
    if joins(rising, u, v) {
        return meets::meet(counters, k, u, v, words, floats, cost);
    }
    cost
}

// Node `u` meets each of `vs`, or each that is greater.
fn meet_row(
    counters: Counters<'_>,
    k: usize,
    rising: bool,
    u: NodeId,
    vs: &[u32],
    words: &mut [u32],
    floats: &mut [f32],
    cost: usize,
) -> usize
    requires { Game counters.dimension counters.n k counters.lanes.now words.old floats.old × (u.0 < counters.n) × Short counters.n vs.now × (cost ≤ 1073741824) }
    ensures { Does counters.entry.n k (length vs.now) (through (meet (between counters.entry) counters.entry.n k) (row_pairs rising u.0 vs.now)) words.old floats.old cost words.new floats.new result }
{
    let mut total = cost;
    for &v in vs {
        let v = NodeId(v);
        total = meet_one(counters, k, rising, u, v, words, floats, total);
    }
    total
}

// The place of the first partner of the node at place `i`: a node never rises to itself.
#[tactic(auto, unfolding(crate::specs::Passes::first_of))]
fn first(behind: bool, rising: bool, i: usize) -> usize
    requires { i ≤ 64 }
    ensures { result ≡ first_of behind rising i }
{
    match (behind, rising) {
        (true, true) => i + 1,
        (true, false) => i,
        (false, _) => 0,
    }
}

// Each of `us` meets its partners among `vs`: all of them, or, where the two are one list (`behind`), those from its own place on, and greater ones alone where pairs have to rise.
fn pass(
    counters: Counters<'_>,
    k: usize,
    behind: bool,
    rising: bool,
    us: &[u32],
    vs: &[u32],
    words: &mut [u32],
    floats: &mut [f32],
    cost: usize,
) -> usize
    requires { Game counters.dimension counters.n k counters.lanes.now words.old floats.old × Short counters.n us.now × Short counters.n vs.now × Within behind rising us.now vs.now × (cost ≤ 536870912) }
    ensures { Does counters.entry.n k 4096 (through (meet (between counters.entry) counters.entry.n k) (pass_pairs behind rising us.now vs.now)) words.old floats.old cost words.new floats.new result }
{
    let mut total = cost;
    for (i, &u) in us.iter().enumerate() {
        let from = first(behind, rising, i);
        total = meet_row(
            counters,
            k,
            rising,
            NodeId(u),
            &vs[from..],
            words,
            floats,
            total,
        );
    }
    total
}

// Each of `us` meets each of `vs`.
fn cross(
    counters: Counters<'_>,
    k: usize,
    us: &[u32],
    vs: &[u32],
    words: &mut [u32],
    floats: &mut [f32],
    cost: usize,
) -> usize
    requires { Game counters.dimension counters.n k counters.lanes.now words.old floats.old × Short counters.n us.now × Short counters.n vs.now × (cost ≤ 536870912) }
    ensures { Does counters.entry.n k 4096 (through (meet (between counters.entry) counters.entry.n k) (cross us.now vs.now)) words.old floats.old cost words.new floats.new result }
{
    pass(counters, k, false, false, us, vs, words, floats, cost)
}

// The first three passes: new with new from the same place on, new with old, and reversed-new with later and greater reversed-new.
fn early_passes(
    counters: Counters<'_>,
    k: usize,
    new: &[u32],
    old: &[u32],
    reversed_new: &[u32],
    words: &mut [u32],
    floats: &mut [f32],
    cost: usize,
) -> usize
    requires { Game counters.dimension counters.n k counters.lanes.now words.old floats.old × Short counters.n new.now × Short counters.n old.now × Short counters.n reversed_new.now × (cost ≤ 402653184) }
    ensures { Does counters.entry.n k 12288 (through (meet (between counters.entry) counters.entry.n k) (early_pairs new.now old.now reversed_new.now)) words.old floats.old cost words.new floats.new result }
{
    let a = pass(counters, k, true, false, new, new, words, floats, cost);
    let b = cross(counters, k, new, old, words, floats, a);
    pass(
        counters,
        k,
        true,
        true,
        reversed_new,
        reversed_new,
        words,
        floats,
        b,
    )
}

// The last four passes: reversed-new with reversed-old, new with both, and old with reversed-new.
fn late_passes(
    counters: Counters<'_>,
    k: usize,
    new: &[u32],
    old: &[u32],
    reversed_new: &[u32],
    reversed_old: &[u32],
    words: &mut [u32],
    floats: &mut [f32],
    cost: usize,
) -> usize
    requires { Game counters.dimension counters.n k counters.lanes.now words.old floats.old × Short counters.n new.now × Short counters.n old.now × Short counters.n reversed_new.now × Short counters.n reversed_old.now × (cost ≤ 402653184) }
    ensures { Does counters.entry.n k 16384 (through (meet (between counters.entry) counters.entry.n k) (late_pairs new.now old.now reversed_new.now reversed_old.now)) words.old floats.old cost words.new floats.new result }
{
    let a = cross(counters, k, reversed_new, reversed_old, words, floats, cost);
    let b = cross(counters, k, new, reversed_old, words, floats, a);
    let c = cross(counters, k, new, reversed_new, words, floats, b);
    cross(counters, k, old, reversed_new, words, floats, c)
}

// A context list: the length at `at`, and behind it the members.
fn members_at(context: &[u32], n: usize, at: usize) -> &[u32]
    requires { Members n (drop at context.now) × (at ≤ 195) }
    ensures { MembersOf n (drop at context.now) result.now }
{
    let from = at + 1;
    let to = from + context[at] as usize;
    &context[from..to]
}

/// The seven passes over one context, in order (hora's `iterate_nn`).
pub fn passes(
    counters: Counters<'_>,
    k: usize,
    context: &[u32],
    words: &mut [u32],
    floats: &mut [f32],
    cost: usize,
) -> usize
    requires { Game counters.dimension counters.n k counters.lanes.now words.old floats.old × Contexted counters.n context.now × (cost ≤ 268435456) }
    ensures { Does counters.entry.n k 28672 (through (meet (between counters.entry) counters.entry.n k) (passes (context_in context.now))) words.old floats.old cost words.new floats.new result }
{
    let new = members_at(context, counters.n, 0);
    let old = members_at(context, counters.n, 65);
    let reversed_new = members_at(context, counters.n, 130);
    let reversed_old = members_at(context, counters.n, 195);
    let done = early_passes(counters, k, new, old, reversed_new, words, floats, cost);
    late_passes(
        counters,
        k,
        new,
        old,
        reversed_new,
        reversed_old,
        words,
        floats,
        done,
    )
}

/// The passes over the context of each node, rising; returns the cost.
pub fn meet_all(
    counters: Counters<'_>,
    k: usize,
    contexts: &[u32],
    words: &mut [u32],
    floats: &mut [f32],
) -> usize
    requires { Game counters.dimension counters.n k counters.lanes.now words.old floats.old × ManyContexted counters.n contexts.now }
    ensures { Does counters.entry.n k (counters.entry.n * 28672) (meet_all (between counters.entry) counters.entry.n k (contexts_in counters.entry.n contexts.now)) words.old floats.old 0 words.new floats.new result }
{
    let mut total: usize = 0;
    for i in 0..counters.n {
        let at = 260 * i;
        total = passes(counters, k, &contexts[at..], words, floats, total);
    }
    total
}
