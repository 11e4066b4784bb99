// Rows of slots in two slices, nodes and distances: their live part, the row writer of step 4 and the rows of step 6.
#![tactic(auto)]

ghost use Rattle.std.specs.Prelude.{◌≡◌, ◌*◌, ◌≤◌, length};
ghost use Rattle.rules.specs.Lists.{entries};
ghost use Rattle.rules.specs.Rows.{empty_distance, finished};
ghost use Rattle.rules.specs.Build.{row_of, graph_from};
ghost use Rattle.rows.specs.Live.{LiveIn, filled};

/// The distance of an empty slot, 0x7F7FFFFF (hora's `E::max_value()`).
pub const EMPTY: f32 = f32::MAX;

/// How many slots of a row `w` wide are live: those in front of its first empty distance.
pub fn live_len(dists: &[f32], w: usize) -> usize
    requires { w ≤ length dists.now }
    ensures { LiveIn w dists.now result }
{
    dists[..w].iter().position(|&d| d == EMPTY).unwrap_or(w)
}

/// Makes a row `w` wide of its first `kept` entries: every slot behind them is empty, and holds node `n`
/// (what hora's `prune_graph` leaves in `cut_graph_`).
pub fn fill_row(nodes: &mut [u32], dists: &mut [f32], w: usize, kept: usize, n: usize)
    requires { (length nodes.old ≡ w) × (length dists.old ≡ w) × (kept ≤ w) × (n ≤ 4096) }
    ensures { entries w nodes.new dists.new ≡ row_of n w (entries kept nodes.old dists.old) }
{
    nodes[kept..].fill(n as u32);
    dists[kept..].fill(EMPTY);
}

/// Step 6 for one row `w` wide: the live nodes, then `n` in every slot left.
pub fn finish_row(n: usize, w: usize, nodes: &mut [u32], dists: &[f32])
    requires { (length nodes.old ≡ w) × (w ≤ length dists.now) × (n ≤ 4096) }
    ensures { nodes.new ≡ finished n w (entries w nodes.old dists.now) }
{
    let live = live_len(dists, w);
    nodes[live..].fill(n as u32);
}

/// Step 6: each row of the graph, in place of the slots' nodes (the last loop of hora's `link`).
pub fn finish(n: usize, index_size: usize, nodes: &mut [u32], dists: &[f32])
    requires n_bound { (n ≤ 4096) × (index_size ≤ 64) }
    requires nodes_len { (length nodes.old ≡ n * index_size) × (n * index_size ≤ length dists.now) }
    ensures { nodes.new ≡ graph_from n index_size (entries (n * index_size) nodes.old dists.now) }
{
    for q in 0..n {
        let a = q * index_size;
        let e = a + index_size;
        finish_row(n, index_size, &mut nodes[a..e], &dists[a..e]);
    }
}
