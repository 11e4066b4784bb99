// Replays the oracle's searches on lent places full of junk, and compares what each answers and leaves with what the Rust answered.
#![tactic(auto)]

use cases::Cursor;
use kinds::Kind;
use rules::SearchCounts;
use shape::Shape;
use std::io;
use tallies::{Difference, JUNK, Outcome};

mod left;
mod shape;

// The call. `c` is the place of the answer in the list.
fn searched(
    text: &[u8],
    c: Cursor,
    s: Shape,
    lanes: &[f32],
    query: &[f32],
    graph: &[u32],
    roots: &[u32],
) -> Outcome {
    let mut nodes: [u32; 64] = [JUNK; 64];
    let mut bits: [u32; 64] = [JUNK; 64];
    let mut words: [u32; 2048] = [JUNK; 2048];
    let mut floats: [f32; 2048] = [1.5; 2048];
    let answer = search::search(
        s.dimension,
        s.n,
        lanes,
        graph,
        s.row,
        roots,
        query,
        s.k,
        &mut nodes,
        &mut bits,
        &mut words,
        &mut floats,
    );
    match answer {
        Ok(SearchCounts { m, takings }) => {
            let o = left::found(text, c, m, takings, &nodes, &bits);
            tallies::with_scratch(o, &words, &floats)
        }
        Err(_) => left::pass_answer(text, c, Difference::Refused),
    }
}

fn with_points(
    text: &[u8],
    c: Cursor,
    s: Shape,
    points: &[f32],
    graph: &[u32],
    roots: &[u32],
) -> Outcome {
    let cut = cases::area(s.n, s.dimension).min(points.len());
    searched(text, c, s, &points[..cut], &points[cut..], graph, roots)
}

// The case's input, read into slices of its lengths: the query stands behind the lanes.
fn given(
    text: &[u8],
    s: Shape,
    points: &mut [f32],
    graph: &mut [u32],
    roots: &mut [u32],
) -> Outcome {
    let a = cases::read_words(text, s.cursor, roots);
    let b = cases::read_floats(text, a, points);
    let c = cases::read_words(text, b, graph);
    with_points(text, c, s, points, graph, roots)
}

// The parts of our places that the case asks for; what is too long for them is cut, and so refused.
fn lent(
    text: &[u8],
    s: Shape,
    points: &mut [f32],
    graph: &mut [u32],
    roots: &mut [u32],
) -> Outcome {
    let points_long = s.points.min(points.len());
    let graph_long = cases::area(s.n, s.row).min(graph.len());
    let roots_long = s.roots.min(roots.len());
    given(
        text,
        s,
        &mut points[..points_long],
        &mut graph[..graph_long],
        &mut roots[..roots_long],
    )
}

fn one_search(text: &[u8], c: Cursor) -> Outcome {
    let s = shape::read_shape(text, c);
    let mut points: [f32; 1088] = [0.0; 1088];
    let mut graph: [u32; 512] = [0; 512];
    let mut roots: [u32; 64] = [0; 64];
    lent(text, s, &mut points, &mut graph, &mut roots)
}

fn one_case(text: &[u8], kind: Kind, c: Cursor) -> Option<Outcome> {
    (kind == Kind::Search).then(|| one_search(text, c))
}

fn main(rt: HostRuntime) -> io::Result<()> {
    let mut room = cases::room();
    let n = tallies::read_list(&rt, None, &mut room)?;
    tallies::replay(&rt, b"searches compared: ", &room[..n], one_case)?;
    for i in 1..inputs::arg_count(&rt) {
        let n = tallies::read_list(&rt, Some(i), &mut room)?;
        tallies::replay(
            &rt,
            b"searches of a list that is wrong on purpose: ",
            &room[..n],
            one_case,
        )?;
    }
    Ok(())
}
