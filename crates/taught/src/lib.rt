// Step 1 of build for every node: the exact lists one behind the other in one slice.
#![tactic(auto)]

ghost use Rattle.std.specs.Prelude.{◌≡◌, ◌+◌, ◌*◌, ◌≤◌, ◌<◌, min, length};
ghost use Rattle.metrics.specs.Counters.{between};
ghost use Rattle.taught.specs.Taught.{Taught, eight_in, HoldsEight, Ranged};

use metrics::Counters;
use rules::NodeId;

// The exact lists one by one: `row` holds the distances of one node at a time.
fn one_by_one(counters: Counters<'_>, init_k: usize, row: &mut [f32], lists: &mut [u32])
    requires within { (counters.n ≤ length row.old) × (counters.n ≤ 4096) }
    requires le_init_k { (1 ≤ init_k) × (init_k ≤ 64) × (counters.n * init_k ≤ length lists.old) }
    ensures { Taught (between counters.entry) counters.entry.n init_k lists.old row.old lists.new row.new }
{
    let mut nodes = [0u32; 64];
    let mut dists = [0.0f32; 64];
    for q in 0..counters.n {
        let from = q * init_k;
        let to = from + init_k;
        exact::exact_list(
            counters,
            NodeId(q as u32),
            init_k,
            row,
            &mut nodes,
            &mut dists,
            &mut lists[from..to],
        );
    }
}

// The exact lists of the nodes from `base` up to `end`, of which `rows` holds the distances, eight to a node.
fn lists_of(rows: &[f32], n: usize, init_k: usize, base: usize, end: usize, lists: &mut [u32])
    requires holds_eight { HoldsEight n base rows.now × (n ≤ 4096) × (n * 8 ≤ length rows.now) × (base ≤ end) × (end ≤ n) × (end ≤ base + 8) }
    requires le_init_k { (1 ≤ init_k) × (init_k ≤ 64) × (n * init_k ≤ length lists.old) }
    ensures { Ranged (eight_in base rows.now) n init_k base end lists.old lists.new }
{
    let mut nodes = [0u32; 64];
    let mut dists = [0.0f32; 64];
    for p in base..end {
        let start = p * init_k;
        let behind = start + init_k;
        exact::list_of(
            rows,
            8,
            p - base,
            n,
            NodeId(p as u32),
            init_k,
            &mut nodes,
            &mut dists,
            &mut lists[start..behind],
        );
    }
}

// Where the eight nodes from `base` on end, or all.
fn end_of(n: usize, base: usize) -> usize
    requires { base < n }
    ensures { (base < result) × (result ≤ n) × (result ≤ base + 8) × (result ≡ min (base + 8) n) }
{
    base + (n - base).min(8)
}

// The exact lists eight by eight: `rows` holds the distances of eight nodes at a time.
fn eight_by_eight(counters: Counters<'_>, init_k: usize, rows: &mut [f32], lists: &mut [u32])
    requires within { (counters.dimension ≤ 64) × (counters.n * 8 ≤ length rows.old) × (counters.n ≤ 4096) }
    requires le_init_k { (1 ≤ init_k) × (init_k ≤ 64) × (counters.n * init_k ≤ length lists.old) }
    ensures { Taught (between counters.entry) counters.entry.n init_k lists.old rows.old lists.new rows.new }
{
    let mut base = 0usize;
    while base < counters.n {
        exact::distances_eight(counters, base, rows);
        let end = end_of(counters.n, base);
        lists_of(rows, counters.n, init_k, base, end, lists);
        base = end;
    }
}

/// Writes the exact list of each node, `init_k` places apart (hora's `build_knn_graph`); `row` holds the distances of one node at a time,
/// or of eight where it has the places.
pub fn exact_all(counters: Counters<'_>, init_k: usize, row: &mut [f32], lists: &mut [u32])
    requires within { (counters.n ≤ length row.old) × (counters.n ≤ 4096) }
    requires le_init_k { (1 ≤ init_k) × (init_k ≤ 64) × (counters.n * init_k ≤ length lists.old) }
    ensures { Taught (between counters.entry) counters.entry.n init_k lists.old row.old lists.new row.new }
{
    if counters.dimension <= 64 && counters.n * 8 <= row.len() {
        eight_by_eight(counters, init_k, row, lists);
    } else {
        one_by_one(counters, init_k, row, lists);
    }
}
