// Square I in three orders of its moves, and 44 orders of each of nine sets of jobs: every order of one set must end in the same lists.
#![tactic(auto)]

use run::Relay;
use std::io;
use tally::{Lists, Outcome, Tally};

mod order;
mod run;
mod sets;
mod tally;

// The orders of a set: four by rule, and further ones shuffled.
const ORDERS: u32 = 44;
// The length of a list of square I.
const SQUARE_K: usize = 2;

// The lists that an order ends in: jobs have two words and eight moves each.
fn ended(r: Relay, given: Lists, kind: u32) -> Outcome {
    let Lists {
        mut nodes,
        mut dists,
    } = given;
    let mut order: [u32; 512] = [0; 512];
    let order = &mut order[..cases::area(4, r.jobs.len()).min(512)];
    order::fill(order, kind, r.jobs.len() / 2);
    let nodes_long = cases::area(r.n, r.k).min(nodes.len());
    let dists_long = cases::area(r.n, r.k).min(dists.len());
    let mut reports: [u32; 128] = [0; 128];
    let refused = run::whole(
        r,
        order,
        &mut nodes[..nodes_long],
        &mut dists[..dists_long],
        &mut reports,
    );
    Outcome {
        lists: Lists { nodes, dists },
        refused,
    }
}

// One set more, on given lists: all its orders beside the first.
fn with_set(r: Relay, given: Lists, t: Tally) -> Tally {
    let first = ended(r, given, 0).lists;
    let mut so_far = tally::with_set(t);
    for kind in 0..ORDERS {
        so_far = tally::with_order(so_far, first, ended(r, given, kind));
    }
    so_far
}

fn put_lists(rt: &impl Print, nodes: &[u32], dists: &[f32]) -> io::Result<()> {
    for (node, dist) in nodes.iter().zip(dists) {
        print!(rt; " {node} at {}", relays::bits_of(*dist))?;
    }
    Ok(())
}

// The reports of three jobs, two words each.
fn put_reports(rt: &impl Print, reports: &[u32]) -> io::Result<()> {
    let mut page: [u8; 128] = [0; 128];
    let named = pages::put(&mut page, 0, b", reports");
    let listed = refusals::put_words(&mut page, named, reports, 6);
    let end = pages::put(&mut page, listed, b"\n");
    rt.write_all(pages::text(&page, end))
}

// Square I in an order of its 24 moves: the lists, two entries a node, and the reports of its three jobs.
fn square(rt: &impl Print, name: &str, order: &[u32]) -> io::Result<()> {
    let lanes = sets::square_lanes();
    let jobs = sets::square_jobs();
    let mut nodes: [u32; 8] = [4; 8];
    let mut dists: [f32; 8] = [rows::EMPTY; 8];
    let mut reports: [u32; 128] = [0; 128];
    let r = Relay {
        n: 4,
        k: SQUARE_K,
        lanes: &lanes,
        jobs: &jobs,
    };
    let refused = run::whole(r, order, &mut nodes, &mut dists, &mut reports);
    print!(rt; "{name}")?;
    put_lists(rt, &nodes, &dists)?;
    put_reports(rt, &reports)?;
    if refused != 0 {
        print!(rt; "refused: {refused}")?;
    }
    Ok(())
}

fn squares(rt: &impl Print) -> io::Result<()> {
    let mut one: [u32; 24] = [0; 24];
    order::fill(&mut one, 0, 3);
    square(rt, "I, one job at a time:", &one)?;
    let mut round: [u32; 24] = [0; 24];
    order::fill(&mut round, 1, 3);
    square(rt, "I, a step of each in turn:", &round)?;
    let last = [
        0, 0, 0, 0, 0, 0, 0, 0, 2, 2, 2, 2, 2, 2, 2, 2, 1, 1, 1, 1, 1, 1, 1, 1,
    ];
    square(rt, "I, the second job last:", &last)
}

// Square I.
fn with_square(t: Tally) -> Tally {
    let lanes = sets::square_lanes();
    let jobs = sets::square_jobs();
    let r = Relay {
        n: 4,
        k: SQUARE_K,
        lanes: &lanes,
        jobs: &jobs,
    };
    with_set(r, tally::unfilled(4), t)
}

// A drawn game: twelve jobs on unfilled lists, and twelve on what these left.
fn with_game(number: u32, t: Tally) -> Tally {
    let g = sets::drawn(number);
    let mut lanes: [f32; 6] = [0.0; 6];
    let mut jobs: [u32; 24] = [0; 24];
    let mut further: [u32; 24] = [0; 24];
    order::fill_lanes(&mut lanes, g.lanes);
    order::fill_drawn(&mut jobs, g.first, g.n);
    order::fill_drawn(&mut further, g.further, g.n);
    let unfilled = tally::unfilled(g.n);
    let r = Relay {
        n: 6,
        k: g.k,
        lanes: &lanes,
        jobs: &jobs,
    };
    let half = with_set(r, unfilled, t);
    let left = ended(r, unfilled, 0).lists;
    with_set(
        Relay {
            jobs: &further,
            ..r
        },
        left,
        half,
    )
}

fn all_sets() -> Tally {
    let mut t = with_square(tally::none());
    for number in 1..=4 {
        t = with_game(number, t);
    }
    t
}

fn main(rt: HostRuntime) -> io::Result<()> {
    squares(&rt)?;
    let t = all_sets();
    println!(rt; "sets: {}\norders: {}", t.sets, t.orders)?;
    println!(rt; "that differ: {}\ncalls refused: {}", t.differ, t.refused)
}
