// The entries over the C boundary: each is thin over the proved entry and has its equation as its contract.
#![tactic(auto)]

ghost use Rattle.params.specs.Params.{params};
ghost use Rattle.build.specs.Build.{lent as build_lent};
ghost use Rattle.search.specs.Search.{lent as search_lent};
ghost use Rattle.descent.specs.Descent.{lent as descent_lent};
ghost use Rattle.relay_opening.specs.Opening.{lent as open_lent};
ghost use Rattle.relay_move.specs.Move.{lent as move_lent};
ghost use Rattle.relay_close.specs.Close.{lent as close_lent};
ghost use Rattle.spoonmeadow.specs.Across.{Built, Searched, Begun, IteratedOnce, Opened, Moved, Closed};

use answers::{Found, Iterated, Said};
use params::SsgParams;

/// `build` for C: the parameters one by one.
#[unsafe(no_mangle)]
pub extern "C" fn spoonmeadow_build(
    init_k: usize,
    index_size: usize,
    neighbor_neighbor_size: usize,
    threshold: f32,
    dimension: usize,
    n: usize,
    lanes: &[f32],
    graph: &mut [u32],
    scratch_u: &mut [u32],
    scratch_f: &mut [f32],
) -> Said
    ensures { Built (build_lent (params threshold init_k index_size neighbor_neighbor_size) dimension n lanes.now graph.old scratch_u.old scratch_f.old) result graph.new scratch_u.new scratch_f.new }
{
    let params = SsgParams {
        threshold,
        init_k,
        index_size,
        neighbor_neighbor_size,
    };
    Said::from(build::build(params, dimension, n, lanes, graph, scratch_u, scratch_f))
}

/// `search` for C.
#[unsafe(no_mangle)]
pub extern "C" fn spoonmeadow_search(
    dimension: usize,
    n: usize,
    lanes: &[f32],
    graph: &[u32],
    index_size: usize,
    roots: &[u32],
    query: &[f32],
    k: usize,
    result_nodes: &mut [u32],
    result_bits: &mut [u32],
    scratch_u: &mut [u32],
    scratch_f: &mut [f32],
) -> Found
    ensures { Searched (search_lent dimension n lanes.now graph.now index_size roots.now query.now k result_nodes.old result_bits.old scratch_u.old scratch_f.old) result result_nodes.new result_bits.new scratch_u.new scratch_f.new }
{
    Found::from(search::search(
        dimension,
        n,
        lanes,
        graph,
        index_size,
        roots,
        query,
        k,
        result_nodes,
        result_bits,
        scratch_u,
        scratch_f,
    ))
}

/// `begin` for C.
#[unsafe(no_mangle)]
pub extern "C" fn spoonmeadow_begin(
    dimension: usize,
    n: usize,
    lanes: &[f32],
    k: usize,
    s: usize,
    draws: &[u32],
    state_u: &mut [u32],
    state_f: &mut [f32],
    scratch_u: &mut [u32],
    scratch_f: &mut [f32],
) -> Said
    ensures { Begun (descent_lent dimension n lanes.now k s draws.now state_u.old state_f.old scratch_u.old scratch_f.old) result state_u.new state_f.new scratch_u.new scratch_f.new }
{
    Said::from(descent::begin(
        dimension, n, lanes, k, s, draws, state_u, state_f, scratch_u, scratch_f,
    ))
}

/// `iterate` for C.
#[unsafe(no_mangle)]
pub extern "C" fn spoonmeadow_iterate(
    dimension: usize,
    n: usize,
    lanes: &[f32],
    k: usize,
    s: usize,
    draws: &[u32],
    state_u: &mut [u32],
    state_f: &mut [f32],
    scratch_u: &mut [u32],
    scratch_f: &mut [f32],
) -> Iterated
    ensures { IteratedOnce (descent_lent dimension n lanes.now k s draws.now state_u.old state_f.old scratch_u.old scratch_f.old) result state_u.new state_f.new scratch_u.new scratch_f.new }
{
    Iterated::from(iterate::iterate(
        dimension, n, lanes, k, s, draws, state_u, state_f, scratch_u, scratch_f,
    ))
}

/// `open` for C.
#[unsafe(no_mangle)]
pub extern "C" fn spoonmeadow_open(
    dimension: usize,
    n: usize,
    lanes: &[f32],
    k: usize,
    nodes: &[u32],
    distances: &[f32],
    jobs: &[u32],
    state_u: &mut [u32],
    state_f: &mut [f32],
    scratch_u: &mut [u32],
    scratch_f: &mut [f32],
) -> Said
    ensures { Opened (open_lent dimension n lanes.now k nodes.now distances.now jobs.now state_u.old state_f.old scratch_u.old scratch_f.old) result state_u.new state_f.new scratch_u.new scratch_f.new }
{
    Said::from(relay_opening::open(
        dimension, n, lanes, k, nodes, distances, jobs, state_u, state_f, scratch_u, scratch_f,
    ))
}

/// `move_job` for C.
#[unsafe(no_mangle)]
pub extern "C" fn spoonmeadow_move_job(
    n: usize,
    k: usize,
    job: usize,
    state_u: &mut [u32],
    state_f: &mut [f32],
) -> Said
    ensures { Moved (move_lent n k job state_u.old state_f.old) result state_u.new state_f.new }
{
    Said::from(relay_move::move_job(n, k, job, state_u, state_f))
}

/// `close` for C.
#[unsafe(no_mangle)]
pub extern "C" fn spoonmeadow_close(
    n: usize,
    k: usize,
    state_u: &[u32],
    state_f: &[f32],
    nodes: &mut [u32],
    distances: &mut [f32],
    reports: &mut [u32],
) -> Said
    ensures { Closed (close_lent n k state_u.now state_f.now nodes.old distances.old reports.old) result nodes.new distances.new reports.new }
{
    Said::from(relay_close::close(n, k, state_u, state_f, nodes, distances, reports))
}
