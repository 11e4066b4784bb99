// Step 2 of build: the two-hop candidates of a node, over the exact lists of all nodes in one slice.
#![tactic(auto)]

ghost use Rattle.std.specs.Prelude.{◌≡◌, ◌+◌, ◌*◌, ◌≤◌, ◌<◌, length, take, replicate};
ghost use Rattle.rules.specs.Loops.{through};
ghost use Rattle.rules.specs.Build.{taking, hop, two_hops};
ghost use Rattle.lists.specs.All.{All};
ghost use Rattle.hops.specs.Hops.{list_of, Linked, Flagged, Took, Candidates};

use rules::NodeId;

// Takes node `v` behind the first `len` of `out`, unless it is flagged as taken before.
fn take_node(flags: &mut [u32], out: &mut [u32], len: usize, v: NodeId) -> usize
    requires { Flagged flags.old (take len out.old) × (v.0 < length flags.old) × (len < length out.old) }
    ensures { Took (taking v.0 (take len out.old)) (len + 1) flags.old out.old len flags.new out.new result }
{
    if buffers::is_seen(flags, v) {
        return len;
    }
    buffers::mark_seen(flags, v);
    out[len] = v.0;
    len + 1
}

// Takes node `v`, unless it is `q` or was taken before.
fn hop(flags: &mut [u32], out: &mut [u32], len: usize, limit: usize, q: NodeId, v: NodeId) -> usize
    requires { Flagged flags.old (take len out.old) × (v.0 < length flags.old) × (len < limit) × (limit ≤ length out.old) }
    ensures { Took (hop limit q.0 v.0 (take len out.old)) limit flags.old out.old len flags.new out.new result }
{
    if v.0 == q.0 {
        return len;
    }
    take_node(flags, out, len, v)
}

// The list of node `v`: the lists lie `init_k` places apart, and are `count` long.
#[tactic(auto, unfolding(crate::specs::Hops::list_of))]
fn list_of(lists: &[u32], init_k: usize, count: usize, v: NodeId) -> &[u32]
    requires { v.0 * init_k + count ≤ length lists.now }
    ensures { result.now ≡ list_of lists.now init_k count v.0 }
{
    let from = v.0 as usize * init_k;
    &lists[from..from + count]
}

// Walks the list of `member`, and stops as soon as `limit` are taken.
fn member_hops(
    lists: &[u32],
    init_k: usize,
    count: usize,
    limit: usize,
    q: NodeId,
    member: NodeId,
    flags: &mut [u32],
    out: &mut [u32],
    len: usize,
) -> usize
    requires linked { Linked lists.now init_k count (length flags.old) × (member.0 < length flags.old) }
    requires flagged { Flagged flags.old (take len out.old) × (len ≤ limit) × (limit ≤ length out.old) }
    ensures { Took (through (hop limit q.0) (list_of lists.now init_k count member.0) (take len out.old)) limit flags.old out.old len flags.new out.new result }
{
    let mut taken = len;
    for &v in list_of(lists, init_k, count, member) {
        if limit <= taken {
            return taken;
        }
        taken = hop(flags, out, taken, limit, q, NodeId(v));
    }
    taken
}

// Walks the list of each member of q's list.
fn two_hops(
    lists: &[u32],
    init_k: usize,
    count: usize,
    limit: usize,
    q: NodeId,
    flags: &mut [u32],
    out: &mut [u32],
) -> usize
    requires linked { Linked lists.now init_k count (length flags.old) × (q.0 < length flags.old) }
    requires flagged { Flagged flags.old (take 0 out.old) × (limit ≤ length out.old) }
    ensures { Took (two_hops (list_of lists.now init_k count) limit q.0) limit flags.old out.old 0 flags.new out.new result }
{
    let mut taken = 0;
    for &v in list_of(lists, init_k, count, q) {
        let member = NodeId(v);
        taken = member_hops(lists, init_k, count, limit, q, member, flags, out, taken);
    }
    taken
}

// Adds the members of q's list not yet taken.
fn own_members(
    lists: &[u32],
    init_k: usize,
    count: usize,
    q: NodeId,
    flags: &mut [u32],
    out: &mut [u32],
    len: usize,
) -> usize
    requires linked { Linked lists.now init_k count (length flags.old) × (q.0 < length flags.old) }
    requires flagged { Flagged flags.old (take len out.old) × (len + count ≤ length out.old) }
    ensures { Took (through taking (list_of lists.now init_k count q.0) (take len out.old)) (len + count) flags.old out.old len flags.new out.new result }
{
    let mut taken = len;
    for &v in list_of(lists, init_k, count, q) {
        taken = take_node(flags, out, taken, NodeId(v));
    }
    taken
}

// Clears the flags of the taken, and so all.
fn clear(flags: &mut [u32], out: &[u32], len: usize)
    requires { Flagged flags.old (take len out.now) × All (λ v. v < length flags.old) (take len out.now) × (len ≤ length out.now) }
    ensures { flags.new ≡ replicate (length flags.old) 0 }
{
    for &v in &out[..len] {
        flags[v as usize] = 0;
    }
}

/// Writes the two-hop candidates of `q` to the front of `out` and returns how many there are (hora's
/// `get_point_neighbor_size_neighbors`, and the start of `prune_graph`). The lists of all nodes lie in `lists`, `init_k` places
/// apart and `count` long; `flags` has a place for each node, all zero before and after.
pub fn candidates(
    lists: &[u32],
    init_k: usize,
    count: usize,
    q: NodeId,
    limit: usize,
    flags: &mut [u32],
    out: &mut [u32],
) -> usize
    requires linked { Linked lists.now init_k count (length flags.old) × (q.0 < length flags.old) }
    requires flags_value { (flags.old ≡ replicate (length flags.old) 0) × (limit + count ≤ length out.old) }
    ensures { Candidates (list_of lists.now init_k count) count limit q.0 flags.old out.old flags.new out.new result }
{
    let hopped = two_hops(lists, init_k, count, limit, q, flags, out);
    let taken = own_members(lists, init_k, count, q, flags, out, hopped);
    clear(flags, out, taken);
    taken
}
