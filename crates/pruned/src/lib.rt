// Steps 2 to 4 of build: the candidates of each node, pruned, in its row of slots.
#![tactic(auto)]

ghost use Rattle.std.specs.Prelude.{◌≡◌, ◌*◌, ◌≤◌, ◌<◌, length};
ghost use Rattle.metrics.specs.Counters.{between};
ghost use Rattle.pruned.specs.Pruned.{sizes, Given, Room, PrunedRow, PrunedAll};

use metrics::Counters;
use rules::NodeId;

/// Writes the row of `q`: its two-hop candidates and own members, sorted, chosen, and empty slots behind them (hora's `prune_graph`).
pub fn prune_node(
    counters: Counters<'_>,
    init_k: usize,
    count: usize,
    limit: usize,
    threshold: f32,
    index_size: usize,
    q: NodeId,
    lists: &[u32],
    flags: &mut [u32],
    nodes: &mut [u32],
    dists: &mut [f32],
    row_nodes: &mut [u32],
    row_dists: &mut [f32],
)
    requires within { q.0 < counters.n }
    requires given { Given (between counters) counters.n init_k count limit lists.now }
    requires room { Room counters.n flags.old nodes.old dists.old }
    requires row_nodes_len { (length row_nodes.old ≡ index_size) × (length row_dists.old ≡ index_size) }
    ensures { PrunedRow (between counters.entry) counters.entry.n (sizes init_k index_size limit threshold) q.0 flags.old flags.new nodes.new dists.new row_nodes.new row_dists.new }
{
    let len = hops::candidates(lists, init_k, count, q, limit, flags, nodes);
    exact::distances_to(counters, q, nodes, len, dists);
    lists::sort(nodes, dists, len);
    let kept = prune::choose(
        counters, threshold, false, nodes, dists, len, row_nodes, row_dists, index_size,
    );
    rows::fill_row(row_nodes, row_dists, index_size, kept, counters.n);
}

/// Steps 2 to 4 of every node, rising: the rows of slots one behind the other, `index_size` places each (hora's `prune`, without its threads).
pub fn prune_all(
    counters: Counters<'_>,
    init_k: usize,
    count: usize,
    limit: usize,
    threshold: f32,
    index_size: usize,
    lists: &[u32],
    nodes: &mut [u32],
    dists: &mut [f32],
)
    requires within { index_size ≤ 64 }
    requires given { Given (between counters) counters.n init_k count limit lists.now }
    requires index_size_in_bounds { (counters.n * index_size ≤ length nodes.old) × (counters.n * index_size ≤ length dists.old) }
    ensures { PrunedAll (between counters.entry) counters.entry.n (sizes init_k index_size limit threshold) nodes.old dists.old nodes.new dists.new }
{
    let mut flags = [0u32; 4096];
    let mut pool_nodes = [0u32; 320];
    let mut pool_dists = [0.0f32; 320];
    for q in 0..counters.n {
        let from = q * index_size;
        let to = from + index_size;
        prune_node(
            counters,
            init_k,
            count,
            limit,
            threshold,
            index_size,
            NodeId(q as u32),
            lists,
            &mut flags[..counters.n],
            &mut pool_nodes,
            &mut pool_dists,
            &mut nodes[from..to],
            &mut dists[from..to],
        );
    }
}
