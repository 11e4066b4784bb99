// Replays the oracle's builds on lent places full of junk, and compares the graph of each with the Rust's.
#![tactic(auto)]

use cases::Cursor;
use kinds::Kind;
use shape::Shape;
use std::io;
use tallies::{Difference, JUNK, Outcome};

mod left;
mod shape;

// The call. `c` is the place of the answer in the list.
fn built(text: &[u8], c: Cursor, s: Shape, lanes: &[f32], graph: &mut [u32]) -> Outcome {
    let mut words: [u32; 32768] = [JUNK; 32768];
    let mut floats: [f32; 32768] = [1.5; 32768];
    let answer = build::build(
        s.params,
        s.dimension,
        s.n,
        lanes,
        graph,
        &mut words,
        &mut floats,
    );
    match answer {
        Ok(()) => {
            let o = left::beside(text, c, s.n, graph, None);
            tallies::with_scratch(o, &words, &floats)
        }
        Err(_) => left::beside(text, c, s.n, graph, Some(Difference::Refused)),
    }
}

// The case's lanes, read into a slice of their length.
fn given(text: &[u8], s: Shape, lanes: &mut [f32], graph: &mut [u32]) -> Outcome {
    let c = cases::read_floats(text, s.cursor, lanes);
    built(text, c, s, lanes, graph)
}

// The parts of our places that the case asks for; what is too long for them is cut, and so refused.
fn lent(text: &[u8], s: Shape, lanes: &mut [f32], graph: &mut [u32]) -> Outcome {
    let lanes_long = cases::area(s.n, s.dimension).min(lanes.len());
    let graph_long = cases::area(s.n, s.params.index_size).min(graph.len());
    given(text, s, &mut lanes[..lanes_long], &mut graph[..graph_long])
}

fn one_build(text: &[u8], c: Cursor) -> Outcome {
    let s = shape::read_shape(text, c);
    let mut lanes: [f32; 1024] = [0.0; 1024];
    let mut graph: [u32; 512] = [JUNK; 512];
    lent(text, s, &mut lanes, &mut graph)
}

fn one_case(text: &[u8], kind: Kind, c: Cursor) -> Option<Outcome> {
    (kind == Kind::Build).then(|| one_build(text, c))
}

fn main(rt: HostRuntime) -> io::Result<()> {
    let mut room = cases::room();
    let n = tallies::read_list(&rt, None, &mut room)?;
    tallies::replay(&rt, b"builds compared: ", &room[..n], one_case)?;
    for i in 1..inputs::arg_count(&rt) {
        let n = tallies::read_list(&rt, Some(i), &mut room)?;
        tallies::replay(
            &rt,
            b"builds of a list that is wrong on purpose: ",
            &room[..n],
            one_case,
        )?;
    }
    Ok(())
}
