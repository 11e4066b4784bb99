// Eight nodes at once, their lanes side by side in a local block, or four as they lie: each still summed in lane order with one rounding per operation.
#![tactic(auto)]

ghost use Rattle.std.specs.Prelude.{◌≡◌, true, false, [], ◌∷◌, ◌+◌, ◌*◌, ◌≤◌, ◌<◌, length};
ghost use Rattle.rules.specs.Distance.{lane, fit, answer, carried};
ghost use Rattle.rules.specs.Refusals.{decide, decision_of, row10};
ghost use Rattle.metrics.specs.Counters.{apart, between};
ghost use Rattle.kernels.specs.Eight.{held, Held, Laned, PutRow, Holds, Totals, all_fit, block_fit};
ghost use Rattle.kernels.specs.Four.{Fours, Apart4};

use metrics::Counters;
use rules::{NodeId, Refusal};

/// Whether a total is fit: the two tests of `metrics::metric`, in the shape that the compiler turns into one of eight totals.
#[tactic(auto, using(crate::proofs::Laws::nan_unfit), unfolding(rules::specs::Distance::fit))]
pub fn is_fit(total: f32) -> bool
    ensures { result ≡ fit total }
{
    !total.is_nan() && total.to_bits() <= 0x7F7F_FFFE
}

/// The distance that the answer of a total carries.
#[tactic(auto, unfolding(rules::specs::Distance::carried, rules::specs::Distance::answer))]
pub fn carried(total: f32) -> f32
    ensures { result ≡ carried (answer total) }
{
    if is_fit(total) { total } else { 0.0 }
}

/// Node `v`, or the last of the n where there is none.
#[tactic(auto, using(std::proofs::lemmas::Bool::Decides::nat_tests), unfolding(crate::specs::Eight::held))]
pub fn held(n: usize, v: usize) -> usize
    requires { 1 ≤ n }
    ensures { Held n v result }
{
    v.min(n - 1)
}

// Puts the lanes of a node into the t-th column of the block.
fn put_row(block: &mut [f32], x: &[f32], t: usize)
    requires { (length block.old ≡ 512) × (length x.now ≤ 64) × (t < 8) }
    ensures { PutRow block.old x.now t block.new }
{
    for (l, &lane) in x.iter().enumerate() {
        block[l * 8 + t] = lane;
    }
}

/// The block of the eight nodes from `base` on: lane l of the eight in the places 8l to 8l + 7. Behind node n - 1 it stands again.
pub fn block_of(counters: Counters<'_>, base: usize) -> [f32; 512]
    requires { (counters.dimension ≤ 64) × (base < counters.n) × (counters.n ≤ 4096) }
    ensures { Holds counters.entry.lanes.now counters.entry.dimension counters.entry.n base 8 result }
{
    let mut block = [0.0; 512];
    for t in 0..8 {
        let v = held(counters.n, base + t);
        let x = counters.lanes_of(NodeId(v as u32));
        put_row(&mut block, x, t);
    }
    block
}

// One lane of one node: what `metrics::metric` does in a turn.
#[tactic(auto, unfolding(rules::specs::Distance::lane))]
fn lane(total: f32, x: f32, y: f32) -> f32
    ensures { result ≡ lane total x y }
{
    let t = x - y;
    total + t * t
}

// One lane of the eight.
fn lane8(mut totals: [f32; 8], block: &[f32; 512], from: usize, x: f32) -> [f32; 8]
    requires { from + 8 ≤ 512 }
    ensures { Laned totals block.now from x 8 result }
{
    for t in 0..8 {
        totals[t] = lane(totals[t], x, block[from + t]);
    }
    totals
}

/// The totals of a vector and each of the eight in the block.
pub fn totals8(x: &[f32], block: &[f32; 512]) -> [f32; 8]
    requires { length x.now ≤ 64 }
    ensures { Totals x.now block.now result }
{
    let mut totals = [0.0; 8];
    for (l, &lane) in x.iter().enumerate() {
        let next = lane8(totals, block, l * 8, lane);
        totals = next;
    }
    totals
}

// Whether each of eight totals is fit.
#[tactic(auto, unfolding(zeros::specs::Zeros::all_below))]
fn all_fit(totals: [f32; 8]) -> bool
    ensures { result ≡ all_fit totals }
{
    let mut all = true;
    for total in totals {
        all &= is_fit(total);
    }
    all
}

// Whether the eight nodes from `base` on are fit with every node from there on.
fn clear(counters: Counters<'_>, base: usize) -> bool
    requires { (counters.dimension ≤ 64) × (base < counters.n) × (counters.n ≤ 4096) }
    ensures { result ≡ block_fit (apart counters.entry) counters.entry.n base }
{
    let block = block_of(counters, base);
    for j in base..counters.n {
        let y = counters.lanes_of(NodeId(j as u32));
        let totals = totals8(y, &block);
        if !all_fit(totals) {
            return false;
        }
    }
    true
}

/// Row 10 of build, begin and iteration, as `metrics::first_unfit` gives it: eight nodes at once while all are fit, and pair by pair
/// where one is not. Nothing is written but a local block.
pub fn first_unfit(counters: Counters<'_>) -> Result<(), Refusal>
    requires { counters.n ≤ 4096 }
    ensures { decision_of result ≡ decide (row10 (apart counters.entry) counters.entry.n ∷ []) }
{
    if 64 < counters.dimension {
        return counters.first_unfit();
    }
    for base in (0..counters.n).step_by(8) {
        if !clear(counters, base) {
            return counters.first_unfit();
        }
    }
    Ok(())
}

/// Four numbers, one for each of four nodes.
#[derive(Clone, Copy)]
pub struct Four {
    pub a: f32,
    pub b: f32,
    pub c: f32,
    pub d: f32,
}

/// The totals of a vector and each of four: four sums side by side take little longer than one, whose additions wait for each other.
pub fn totals4(x: &[f32], a: &[f32], b: &[f32], c: &[f32], d: &[f32]) -> Four
    requires { (length a.now ≡ length x.now) × (length b.now ≡ length x.now) × (length c.now ≡ length x.now) × (length d.now ≡ length x.now) }
    ensures { Fours x.now a.now b.now c.now d.now result }
{
    let mut ta = 0.0;
    let mut tb = 0.0;
    let mut tc = 0.0;
    let mut td = 0.0;
    for l in 0..x.len() {
        ta = lane(ta, x[l], a[l]);
        tb = lane(tb, x[l], b[l]);
        tc = lane(tc, x[l], c[l]);
        td = lane(td, x[l], d[l]);
    }
    Four {
        a: ta,
        b: tb,
        c: tc,
        d: td,
    }
}

/// The distances of node `p` and each of four, as `metrics::between` gives them.
pub fn between4(
    counters: Counters<'_>,
    p: NodeId,
    a: NodeId,
    b: NodeId,
    c: NodeId,
    d: NodeId,
) -> Four
    requires { (p.0 < counters.n) × (a.0 < counters.n) × (b.0 < counters.n) × (c.0 < counters.n) × (d.0 < counters.n) }
    ensures { Apart4 (between counters.entry p.0) a.0 b.0 c.0 d.0 result }
{
    let x = counters.lanes_of(p);
    let xa = counters.lanes_of(a);
    let xb = counters.lanes_of(b);
    let xc = counters.lanes_of(c);
    let xd = counters.lanes_of(d);
    let t = totals4(x, xa, xb, xc, xd);
    Four {
        a: carried(t.a),
        b: carried(t.b),
        c: carried(t.c),
        d: carried(t.d),
    }
}
