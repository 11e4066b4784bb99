// The kinds: node and slot numbers, the ordered entry, and the answers.
#![tactic(auto)]

/// A node number: the place of a counter in its game.
#[derive(Clone, Copy, Debug, PartialEq, Eq)]
pub struct NodeId(pub u32);

/// A slot number: a place in the n times `index_size` array of rows.
#[derive(Clone, Copy, Debug, PartialEq, Eq)]
pub struct Slot(pub usize);

/// An entry of a list: a node number beside its distance (hora's `Neighbor`).
#[derive(Clone, Copy)]
pub struct Neighbor {
    pub node: NodeId,
    pub distance: f32,
}

/// A refusal, a case for each row of the table: `code_of` gives its number and places.
#[derive(Clone, Copy, Debug, PartialEq, Eq)]
pub enum Refusal {
    Dimension,
    Nodes,
    Lanes,
    Parameter,
    Threshold,
    Buffer,
    Root(usize),
    Query,
    Job(usize),
    Pair(NodeId, NodeId),
    Draws,
    State,
    Step(usize),
}

/// What a search counts: its results, and the nodes taken from the queue.
#[derive(Clone, Copy, Debug, PartialEq, Eq)]
pub struct SearchCounts {
    pub m: usize,
    pub takings: usize,
}

/// What an iteration counts: its cost, and the total of new.
#[derive(Clone, Copy, Debug, PartialEq, Eq)]
pub struct IterateCounts {
    pub cost: usize,
    pub new: usize,
}
