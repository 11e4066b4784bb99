// Distances: the lanes of a node, the distance answer of two, and the first pair that is unfit.
#![tactic(auto)]

ghost use Rattle.std.specs.Prelude.{◌≡◌, [], ◌∷◌, ◌+◌, ◌*◌, ◌≤◌, ◌<◌, length, eqb};
ghost use Rattle.rules.specs.Distance.{nodes_apart, query_apart, between};
ghost use Rattle.rules.specs.Refusals.{decide, decision_of, row10, unfit_after};
ghost use Rattle.metrics.specs.Measured.{Lanes, Measured, FoundBelow};

use rules::{NodeId, Refusal};

/// Whether two vectors have one length (hora's `same_dimension`).
pub fn same_dimension(a: &[f32], b: &[f32]) -> bool
    ensures { result ≡ eqb (length a.now) (length b.now) }
{
    a.len() == b.len()
}

/// The lanes of a node, as a part of the one lane slice (hora's `Node::vectors`).
pub fn lanes_of<'a>(lanes: &'a [f32], dimension: usize, node: NodeId) -> &'a [f32]
    requires { (node.0 + 1) * dimension ≤ length lanes.now }
    ensures { Lanes lanes.now dimension node.0 result.now }
{
    let from = node.0 as usize * dimension;
    let to = from + dimension;
    &lanes[from..to]
}

/// The distance answer of two vectors (hora's `metric`, squared Euclidean): the squares of the
/// differences added in lane order, each operation rounded once, or that the total is unfit.
pub fn metric(a: &[f32], b: &[f32]) -> Option<f32>
    requires { length a.now ≡ length b.now }
    ensures { Measured a.now b.now result }
{
    let mut total = 0.0f32;
    for i in 0..a.len() {
        let t = a[i] - b[i];
        total = total + t * t;
    }
    // A NaN has no bits to ask for; those of an infinity or a negative number are too large.
    if total != total {
        return None;
    }
    let bits = f32::to_bits(total);
    if bits <= 0x7F7F_FFFE {
        return Some(total);
    }
    None
}

/// The distance answer of a node and a query (hora's `Node::metric`).
pub fn query_distance(lanes: &[f32], dimension: usize, query: &[f32], i: NodeId) -> Option<f32>
    requires { (length query.now ≡ dimension) × ((i.0 + 1) * dimension ≤ length lanes.now) }
    ensures { result ≡ query_apart lanes.now dimension query.now i.0 }
{
    let x = lanes_of(lanes, dimension, i);
    metric(x, query)
}

/// The distance answer of two nodes (hora's `Node::metric`).
pub fn node_distance(lanes: &[f32], dimension: usize, i: NodeId, j: NodeId) -> Option<f32>
    requires { ((i.0 + 1) * dimension ≤ length lanes.now) × ((j.0 + 1) * dimension ≤ length lanes.now) }
    ensures { result ≡ nodes_apart lanes.now dimension i.0 j.0 }
{
    let x = lanes_of(lanes, dimension, i);
    let y = lanes_of(lanes, dimension, j);
    metric(x, y)
}

/// The distance of two nodes, once row 10 has passed (hora's `metric(..).unwrap()`).
pub fn between(lanes: &[f32], dimension: usize, i: NodeId, j: NodeId) -> f32
    requires { ((i.0 + 1) * dimension ≤ length lanes.now) × ((j.0 + 1) * dimension ≤ length lanes.now) }
    ensures { result ≡ between lanes.now dimension i.0 j.0 }
{
    node_distance(lanes, dimension, i, j).unwrap_or(0.0)
}

// The first node after i that is unfit with it.
fn unfit_after(lanes: &[f32], dimension: usize, n: usize, i: NodeId) -> Option<NodeId>
    requires { (length lanes.now ≡ n * dimension) × (n ≤ 4096) × (i.0 < n) }
    ensures { FoundBelow n (unfit_after (nodes_apart lanes.now dimension) n i.0) result }
{
    for v in i.0 as usize + 1..n {
        let j = NodeId(v as u32);
        if node_distance(lanes, dimension, i, j).is_none() {
            return Some(j);
        }
    }
    None
}

/// Row 10 of build, begin and iteration: the first unfit pair i < j, i rising and then j.
pub fn first_unfit(lanes: &[f32], dimension: usize, n: usize) -> Result<(), Refusal>
    requires { (length lanes.now ≡ n * dimension) × (n ≤ 4096) }
    ensures { decision_of result ≡ decide (row10 (nodes_apart lanes.now dimension) n ∷ []) }
{
    for v in 0..n {
        let i = NodeId(v as u32);
        if let Some(j) = unfit_after(lanes, dimension, n, i) {
            return Err(Refusal::Pair(i, j));
        }
    }
    Ok(())
}

/// The counters of a game: n nodes of `dimension` lanes each, one behind the other in one slice.
#[derive(Clone, Copy)]
pub struct Counters<'a> {
    pub lanes: &'a [f32],
    pub dimension: usize,
    pub n: usize,
    ghost whole: { length lanes.now ≡ n * dimension },
}

impl<'a> Counters<'a> {
    /// The lanes of a node.
    pub fn lanes_of(self, node: NodeId) -> &'a [f32]
        requires { node.0 < self.n }
        ensures { Lanes self.entry.lanes.now self.entry.dimension node.0 result.now }
    {
        lanes_of(self.lanes, self.dimension, node)
    }

    /// The distance answer of two nodes.
    pub fn distance(self, i: NodeId, j: NodeId) -> Option<f32>
        requires { (i.0 < self.n) × (j.0 < self.n) }
        ensures { result ≡ nodes_apart self.entry.lanes.now self.entry.dimension i.0 j.0 }
    {
        node_distance(self.lanes, self.dimension, i, j)
    }

    /// The distance of two nodes, once row 10 has passed.
    pub fn between(self, i: NodeId, j: NodeId) -> f32
        requires { (i.0 < self.n) × (j.0 < self.n) }
        ensures { result ≡ between self.entry.lanes.now self.entry.dimension i.0 j.0 }
    {
        between(self.lanes, self.dimension, i, j)
    }

    /// Row 10 of build, begin and iteration.
    pub fn first_unfit(self) -> Result<(), Refusal>
        requires { self.n ≤ 4096 }
        ensures { decision_of result ≡ decide (row10 (nodes_apart self.entry.lanes.now self.entry.dimension) self.entry.n ∷ []) }
    {
        first_unfit(self.lanes, self.dimension, self.n)
    }
}

/// A query of a game's counters, of as many lanes as they have.
#[derive(Clone, Copy)]
pub struct Asked<'a, 'b> {
    pub counters: Counters<'a>,
    pub query: &'b [f32],
    ghost fitting: { length query.now ≡ counters.dimension },
}

impl Asked<'_, '_> {
    /// The distance answer of a node and the query.
    pub fn distance(self, i: NodeId) -> Option<f32>
        requires { i.0 < self.counters.n }
        ensures { result ≡ query_apart self.entry.counters.lanes.now self.entry.counters.dimension self.entry.query.now i.0 }
    {
        query_distance(self.counters.lanes, self.counters.dimension, self.query, i)
    }
}
