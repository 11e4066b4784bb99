// Step 5 of build, an offer at a row of slots: the row is in two slices, and a pool has a place for it and the offer.
#![tactic(auto)]

ghost use Rattle.std.specs.Prelude.{◌≡◌, [], ◌∷◌, ◌++◌, ◌+◌, ◌*◌, ◌<◌, length};
ghost use Rattle.rules.specs.Lists.{entries, sort};
ghost use Rattle.rules.specs.Build.{at_full, offered};
ghost use Rattle.metrics.specs.Counters.{between};
ghost use Rattle.prune.specs.Chosen.{AllBelow};
ghost use Rattle.offers.specs.Sound.{Sound, Row};

use metrics::Counters;
use rules::Neighbor;

// Sorts the entries of a row with the offer, in the pool.
fn gather(
    w: usize,
    nodes: &[u32],
    dists: &[f32],
    pool_nodes: &mut [u32],
    pool_dists: &mut [f32],
    offer: Neighbor,
)
    requires { Row w nodes.now dists.now pool_nodes.old pool_dists.old }
    ensures { entries (w + 1) pool_nodes.new pool_dists.new ≡ sort (entries w nodes.now dists.now ++ (offer ∷ [])) }
{
    buffers::copy_words(w, nodes, pool_nodes);
    buffers::copy_floats(w, dists, pool_dists);
    pool_nodes[w] = offer.node.0;
    pool_dists[w] = offer.distance;
    lists::sort(pool_nodes, pool_dists, w + 1);
}

// What becomes of an offer at a full row: the chosen from the row's start, and the next slot marked.
fn offer_full(
    counters: Counters<'_>,
    threshold: f32,
    w: usize,
    nodes: &mut [u32],
    dists: &mut [f32],
    pool_nodes: &mut [u32],
    pool_dists: &mut [f32],
    offer: Neighbor,
)
    requires within { (offer.node.0 < counters.n) × AllBelow counters.n (entries w nodes.old dists.old) }
    requires row { Row w nodes.old dists.old pool_nodes.old pool_dists.old }
    ensures { entries w nodes.new dists.new ≡ at_full (between counters.entry) threshold w offer (entries w nodes.old dists.old) }
{
    gather(w, nodes, dists, pool_nodes, pool_dists, offer);
    let len = w + 1;
    let kept = prune::choose(
        counters, threshold, true, pool_nodes, pool_dists, len, nodes, dists, w,
    );
    if kept < w {
        dists[kept] = rows::EMPTY;
    }
}

/// What becomes of an offer at a row (the body of hora's `inter_insert`).
pub fn offer(
    counters: Counters<'_>,
    threshold: f32,
    w: usize,
    nodes: &mut [u32],
    dists: &mut [f32],
    pool_nodes: &mut [u32],
    pool_dists: &mut [f32],
    offer: Neighbor,
)
    requires within { (offer.node.0 < counters.n) × Sound counters.n (entries w nodes.old dists.old) }
    requires row { Row w nodes.old dists.old pool_nodes.old pool_dists.old }
    ensures { entries w nodes.new dists.new ≡ offered (between counters.entry) threshold w offer (entries w nodes.old dists.old) }
{
    let live = rows::live_len(dists, w);
    if w <= live {
        offer_full(
            counters, threshold, w, nodes, dists, pool_nodes, pool_dists, offer,
        );
    } else if live + 1 == w {
        nodes[live] = offer.node.0;
        dists[live] = offer.distance;
    }
}
