// Replays the oracle's relays on lent places full of junk, and compares the list that each move leaves, the lists at the end and the reports.
#![tactic(auto)]

use cases::Cursor;
use kinds::Kind;
use rules::Refusal;
use shape::Shape;
use std::io;
use tallies::{Difference, JUNK, Outcome};

mod left;
mod shape;

fn done(answer: Result<(), Refusal>) -> bool {
    match answer {
        Ok(()) => true,
        Err(_) => false,
    }
}

fn moved(
    text: &[u8],
    o: Outcome,
    s: Shape,
    job: usize,
    jobs: &[u32],
    words: &mut [u32],
    floats: &mut [f32],
) -> Outcome {
    let answer = relay_move::move_job(s.n, s.k, job, words, floats);
    let p = tallies::and(o, done(answer), Difference::Refused);
    let node = left::concerned(s, job, jobs, words);
    left::left(text, p, s, node, words, floats)
}

// The moves in their order.
fn run(
    text: &[u8],
    o: Outcome,
    s: Shape,
    jobs: &[u32],
    order: &[u32],
    words: &mut [u32],
    floats: &mut [f32],
) -> Outcome {
    let mut p = o;
    for &job in order {
        p = moved(text, p, s, relays::index(job), jobs, words, floats);
    }
    p
}

// The close, on places of the lists' length.
fn closed(
    text: &[u8],
    o: Outcome,
    s: Shape,
    count: usize,
    words: &[u32],
    floats: &[f32],
    nodes: &mut [u32],
    dists: &mut [f32],
) -> Outcome {
    let mut reports: [u32; 128] = [JUNK; 128];
    let answer = relay_close::close(s.n, s.k, words, floats, nodes, dists, &mut reports);
    let p = tallies::and(o, done(answer), Difference::Refused);
    let q = left::beside(text, p, nodes, dists);
    left::reported(text, q, count, &reports)
}

fn close_in(
    text: &[u8],
    o: Outcome,
    s: Shape,
    count: usize,
    words: &[u32],
    floats: &[f32],
) -> Outcome {
    let mut nodes: [u32; 256] = [JUNK; 256];
    let mut dists: [f32; 256] = [1.5; 256];
    let nodes_long = cases::area(s.n, s.k).min(nodes.len());
    let dists_long = cases::area(s.n, s.k).min(dists.len());
    closed(
        text,
        o,
        s,
        count,
        words,
        floats,
        &mut nodes[..nodes_long],
        &mut dists[..dists_long],
    )
}

// The opening. `c` is the place behind the jobs in the list.
fn opened(
    c: Cursor,
    s: Shape,
    lanes: &[f32],
    nodes: &[u32],
    dists: &[f32],
    jobs: &[u32],
    words: &mut [u32],
    floats: &mut [f32],
) -> Outcome {
    let mut scratch_u: [u32; 55296] = [JUNK; 55296];
    let mut scratch_f: [f32; 55296] = [1.5; 55296];
    let answer = relay_opening::open(
        s.dimension,
        s.n,
        lanes,
        s.k,
        nodes,
        dists,
        jobs,
        words,
        floats,
        &mut scratch_u,
        &mut scratch_f,
    );
    let p = tallies::and(tallies::fresh(c), done(answer), Difference::Refused);
    tallies::with_scratch(p, &scratch_u, &scratch_f)
}

// The moves in the case's order, read into a slice of its length, and the close.
fn ordered(
    text: &[u8],
    o: Outcome,
    s: Shape,
    jobs: &[u32],
    order: &mut [u32],
    words: &mut [u32],
    floats: &mut [f32],
) -> Outcome {
    let p = tallies::at(o, cases::read_words(text, o.cursor, order));
    let q = run(text, p, s, jobs, order, words, floats);
    close_in(text, q, s, jobs.len(), words, floats)
}

fn moves(
    text: &[u8],
    o: Outcome,
    s: Shape,
    jobs: &[u32],
    words: &mut [u32],
    floats: &mut [f32],
) -> Outcome {
    let count = shape::read_moves(text, o.cursor);
    let p = tallies::at(o, count.cursor);
    let mut order: [u32; 512] = [0; 512];
    ordered(text, p, s, jobs, &mut order[..count.value], words, floats)
}

// The relay on a state of the case's lengths. `c` is the place of the moves in the list.
fn relayed(
    text: &[u8],
    c: Cursor,
    s: Shape,
    lanes: &[f32],
    nodes: &[u32],
    dists: &[f32],
    jobs: &[u32],
    words: &mut [u32],
    floats: &mut [f32],
) -> Outcome {
    let o = opened(c, s, lanes, nodes, dists, jobs, words, floats);
    moves(text, o, s, jobs, words, floats)
}

// The case's jobs, read into a slice of their length.
fn with_jobs(
    text: &[u8],
    c: Cursor,
    s: Shape,
    lanes: &[f32],
    nodes: &[u32],
    dists: &[f32],
    jobs: &mut [u32],
) -> Outcome {
    let mut words: [u32; 8192] = [JUNK; 8192];
    let mut floats: [f32; 8192] = [1.5; 8192];
    let words_long = relays::words_long(s.n, s.k).min(words.len());
    let floats_long = relays::floats_long(s.n, s.k).min(floats.len());
    let cursor = cases::read_words(text, c, jobs);
    relayed(
        text,
        cursor,
        s,
        lanes,
        nodes,
        dists,
        jobs,
        &mut words[..words_long],
        &mut floats[..floats_long],
    )
}

fn with_lists(
    text: &[u8],
    c: Cursor,
    s: Shape,
    lanes: &[f32],
    nodes: &[u32],
    dists: &[f32],
) -> Outcome {
    let count = shape::read_jobs(text, c);
    let mut jobs: [u32; 128] = [0; 128];
    with_jobs(
        text,
        count.cursor,
        s,
        lanes,
        nodes,
        dists,
        &mut jobs[..2 * count.value],
    )
}

// The case's lanes and lists, read into slices of their lengths.
fn given(
    text: &[u8],
    s: Shape,
    lanes: &mut [f32],
    nodes: &mut [u32],
    dists: &mut [f32],
) -> Outcome {
    let a = cases::read_floats(text, s.cursor, lanes);
    let b = cases::read_words(text, a, nodes);
    let c = cases::read_floats(text, b, dists);
    with_lists(text, c, s, lanes, nodes, dists)
}

// The parts of our places that the case asks for; what is too long for them is cut, and so refused.
fn lent(text: &[u8], s: Shape, lanes: &mut [f32], nodes: &mut [u32], dists: &mut [f32]) -> Outcome {
    let lanes_long = cases::area(s.n, s.dimension).min(lanes.len());
    let nodes_long = cases::area(s.n, s.k).min(nodes.len());
    let dists_long = cases::area(s.n, s.k).min(dists.len());
    given(
        text,
        s,
        &mut lanes[..lanes_long],
        &mut nodes[..nodes_long],
        &mut dists[..dists_long],
    )
}

fn one_relay(text: &[u8], c: Cursor) -> Outcome {
    let s = shape::read_shape(text, c);
    let mut lanes: [f32; 2048] = [0.0; 2048];
    let mut nodes: [u32; 256] = [0; 256];
    let mut dists: [f32; 256] = [0.0; 256];
    lent(text, s, &mut lanes, &mut nodes, &mut dists)
}

fn one_case(text: &[u8], kind: Kind, c: Cursor) -> Option<Outcome> {
    (kind == Kind::Relay).then(|| one_relay(text, c))
}

fn main(rt: HostRuntime) -> io::Result<()> {
    let mut room = cases::room();
    let n = tallies::read_list(&rt, None, &mut room)?;
    tallies::replay(&rt, b"relays compared: ", &room[..n], one_case)?;
    for i in 1..inputs::arg_count(&rt) {
        let n = tallies::read_list(&rt, Some(i), &mut room)?;
        tallies::replay(
            &rt,
            b"relays of a list that is wrong on purpose: ",
            &room[..n],
            one_case,
        )?;
    }
    Ok(())
}
