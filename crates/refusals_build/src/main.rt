// Square C and every row of the table that `build` can give, at its edges and beside others; each case of stdin says what became of lent junk.
#![tactic(auto)]

ghost use Rattle.std.specs.Prelude.{◌≡◌, IfOk};
ghost use Rattle.pages.specs.Page.{Puts};
ghost use Rattle.refusals_build.specs.Given.{behind_case};
ghost use Rattle.refusals_build.specs.Left.{refused_left};
ghost use Rattle.refusals_build.specs.Texts.{long_text, printed_text, rest_text};

use cases::Cursor;
use given::Call;
use refusals::Left;
use rules::Refusal;
use std::io;

mod given;

// What the first place of the graph holds before a call; each further place holds one more.
const GRAPH: u32 = 0xCD00_0000;
// A longer graph is not printed in full.
const PRINTED: usize = 256;

// A graph of rows of one place: the first, and whether each further one holds the node before its own.
fn put_long(page: &mut [u8], at: usize, graph: &[u32]) -> usize
    ensures { Puts at (long_text graph.now) page.old result page.new }
{
    if graph.is_empty() {
        return pages::put(page, at, b"");
    }
    let first = pages::put_word(page, at, b": ", graph[0]);
    if !refusals::kept(graph, 1, u32::MAX) {
        return first;
    }
    let behind = pages::put_number(page, first, b", and ", graph.len() - 1);
    pages::put(page, behind, b" nodes one behind")
}

#[tactic(auto, unfolding(crate::specs::Texts::printed_text))]
fn put_graph(page: &mut [u8], at: usize, graph: &[u32], index_size: usize) -> usize
    ensures { Puts at (printed_text index_size graph.now) page.old result page.new }
{
    if graph.len() <= PRINTED {
        refusals::put_graph(page, at, graph, index_size)
    } else {
        put_long(page, at, graph)
    }
}

// What became of the lent places: a refusal leaves the graph too.
#[tactic(auto, unfolding(crate::specs::Left::refused_left))]
fn left_refused(graph: &[u32], words: &[u32], floats: &[f32]) -> Left
    ensures { result ≡ refused_left graph.now words.now floats.now }
{
    if refusals::kept(graph, 0, GRAPH) {
        refusals::scratch_left(words, floats)
    } else {
        Left::Written
    }
}

// The rest of a call's line.
fn put_rest(
    page: &mut [u8],
    at: usize,
    answer: Result<(), Refusal>,
    index_size: usize,
    graph: &[u32],
    words: &[u32],
    floats: &[f32],
) -> usize
    ensures { Puts at (rest_text answer index_size graph.now words.now floats.now) page.old result page.new }
{
    match answer {
        Ok(()) => {
            let behind = put_graph(page, at, graph, index_size);
            refusals::put_left(page, behind, refusals::scratch_left(words, floats))
        }
        Err(r) => {
            let behind = refusals::put_refusal(page, at, r);
            refusals::put_left(page, behind, left_refused(graph, words, floats))
        }
    }
}

fn told(
    rt: &impl Print,
    number: u32,
    answer: Result<(), Refusal>,
    index_size: usize,
    graph: &[u32],
    words: &[u32],
    floats: &[f32],
) -> io::Result<()> {
    let mut page: [u8; 4096] = [0; 4096];
    let case = pages::put_word(&mut page, 0, b"case ", number);
    let end = put_rest(&mut page, case, answer, index_size, graph, words, floats);
    rt.write_all(pages::text(&page, end))
}

// A call on the first of given lanes and on junk in places of our own, as many as it says, and its line.
fn called(rt: &impl Print, number: u32, c: Call, lanes: &[f32]) -> io::Result<()> {
    let mut graph: [u32; 4096] = [0; 4096];
    let mut words: [u32; 36864] = [0; 36864];
    let mut floats: [f32; 36864] = [0.0; 36864];
    let lanes = &lanes[..c.lanes.min(lanes.len())];
    let graph_long = c.graph.min(graph.len());
    let words_long = c.words.min(words.len());
    let floats_long = c.floats.min(floats.len());
    let graph = &mut graph[..graph_long];
    let words = &mut words[..words_long];
    let floats = &mut floats[..floats_long];
    refusals::fill(graph, GRAPH);
    refusals::fill_scratch(words, floats);
    let answer = build::build(c.params, c.dimension, c.n, lanes, graph, words, floats);
    told(
        rt,
        number,
        answer,
        c.params.index_size,
        graph,
        words,
        floats,
    )
}

// A case: its numbers, and its first lanes after their number; lane i behind them is i.
#[tactic(auto, unfolding(crate::specs::Given::behind_case))]
fn one_case(rt: &impl Print, text: &[u8], c: Cursor, number: u32) -> io::Result<Cursor>
    ensures { IfOk result (λ behind. behind ≡ behind_case text.now c) }
{
    let case = given::read_case(text, c);
    let mut lanes: [f32; 4096] = [0.0; 4096];
    refusals::fill(&mut lanes, 0.0);
    let first = refusals::read_lanes(text, case.cursor, &mut lanes);
    called(rt, number, case.value, &lanes)?;
    Ok(first.cursor)
}

fn main(rt: HostRuntime) -> io::Result<()> {
    let mut room = cases::room();
    let n = inputs::read_full(&mut rt.reader(), &mut room)?;
    let text = &room[..n];
    refusals::each_case(&rt, text, |c, number, _kind| one_case(&rt, text, c, number))?;
    Ok(())
}
