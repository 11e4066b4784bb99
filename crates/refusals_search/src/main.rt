// Squares D to G and J and every row of the table that `search` can give, at its edges and beside others; each case of stdin says what became of lent junk.
#![tactic(auto)]

ghost use Rattle.std.specs.Prelude.{◌≡◌, IfOk};
ghost use Rattle.pages.specs.Page.{Puts};
ghost use Rattle.refusals_search.specs.Given.{behind_case};
ghost use Rattle.refusals_search.specs.Left.{results_left};
ghost use Rattle.refusals_search.specs.Texts.{results_text, rest_text};

use cases::Cursor;
use given::Call;
use refusals::Left;
use rules::{Refusal, SearchCounts};
use std::io;

mod given;

// What the first place of each result slice holds before a call; each further place holds one more.
const NODES: u32 = 0xCD00_0000;

const BITS: u32 = 0xAB00_0000;

// What became of the lent places, where the first `m` of the results are the answer's.
#[tactic(auto, unfolding(crate::specs::Left::results_left))]
fn left(m: usize, nodes: &[u32], bits: &[u32], words: &[u32], floats: &[f32]) -> Left
    ensures { result ≡ results_left m nodes.now bits.now words.now floats.now }
{
    if !refusals::kept(nodes, m, NODES) || !refusals::kept(bits, m, BITS) {
        return Left::Written;
    }
    refusals::scratch_left(words, floats)
}

fn put_results(
    page: &mut [u8],
    at: usize,
    m: usize,
    takings: usize,
    nodes: &[u32],
    bits: &[u32],
) -> usize
    ensures { Puts at (results_text m takings nodes.now bits.now) page.old result page.new }
{
    let found = pages::put_number(page, at, b": ", m);
    let taken = pages::put_number(page, found, b",", takings);
    let named = pages::put(page, taken, b", nodes");
    let listed = refusals::put_words(page, named, nodes, m);
    let away = pages::put(page, listed, b" at");
    refusals::put_words(page, away, bits, m)
}

// The rest of a call's line: the answer with its results, or the refusal's number and places; and what is left.
fn put_rest(
    page: &mut [u8],
    at: usize,
    answer: Result<SearchCounts, Refusal>,
    nodes: &[u32],
    bits: &[u32],
    words: &[u32],
    floats: &[f32],
) -> usize
    ensures { Puts at (rest_text answer nodes.now bits.now words.now floats.now) page.old result page.new }
{
    match answer {
        Ok(SearchCounts { m, takings }) => {
            let behind = put_results(page, at, m, takings, nodes, bits);
            refusals::put_left(page, behind, left(m, nodes, bits, words, floats))
        }
        Err(r) => {
            let behind = refusals::put_refusal(page, at, r);
            refusals::put_left(page, behind, left(0, nodes, bits, words, floats))
        }
    }
}

fn told(
    rt: &impl Print,
    number: u32,
    answer: Result<SearchCounts, Refusal>,
    nodes: &[u32],
    bits: &[u32],
    words: &[u32],
    floats: &[f32],
) -> io::Result<()> {
    let mut page: [u8; 2048] = [0; 2048];
    let case = pages::put_word(&mut page, 0, b"case ", number);
    let end = put_rest(&mut page, case, answer, nodes, bits, words, floats);
    rt.write_all(pages::text(&page, end))
}

// A call on what is given, on junk in places of our own that are as long as it says, and its line.
fn called(
    rt: &impl Print,
    number: u32,
    c: Call,
    lanes: &[f32],
    graph: &[u32],
    roots: &[u32],
    query: &[f32],
) -> io::Result<()> {
    let mut nodes: [u32; 65] = [0; 65];
    let mut bits: [u32; 65] = [0; 65];
    let mut words: [u32; 1284] = [0; 1284];
    let mut floats: [f32; 1284] = [0.0; 1284];
    let nodes_long = c.nodes.min(nodes.len());
    let bits_long = c.bits.min(bits.len());
    let words_long = c.words.min(words.len());
    let floats_long = c.floats.min(floats.len());
    let nodes = &mut nodes[..nodes_long];
    let bits = &mut bits[..bits_long];
    let words = &mut words[..words_long];
    let floats = &mut floats[..floats_long];
    refusals::fill(nodes, NODES);
    refusals::fill(bits, BITS);
    refusals::fill_scratch(words, floats);
    let answer = search::search(
        c.dimension,
        c.n,
        lanes,
        graph,
        c.index_size,
        roots,
        query,
        c.k,
        nodes,
        bits,
        words,
        floats,
    );
    told(rt, number, answer, nodes, bits, words, floats)
}

// A case: its numbers, then what is lent to be read, each run after its length.
#[tactic(auto, unfolding(crate::specs::Given::behind_case))]
fn one_case(rt: &impl Print, text: &[u8], c: Cursor, number: u32) -> io::Result<Cursor>
    ensures { IfOk result (λ behind. behind ≡ behind_case text.now c) }
{
    let case = given::read_case(text, c);
    let mut lanes: [f32; 65] = [0.0; 65];
    let mut graph: [u32; 65] = [0; 65];
    let mut roots: [u32; 65] = [0; 65];
    let mut query: [f32; 2] = [0.0; 2];
    let l = refusals::read_lanes(text, case.cursor, &mut lanes);
    let g = refusals::read_run(text, l.cursor, &mut graph);
    let r = refusals::read_run(text, g.cursor, &mut roots);
    let q = refusals::read_lanes(text, r.cursor, &mut query);
    called(
        rt,
        number,
        case.value,
        &lanes[..l.value],
        &graph[..g.value],
        &roots[..r.value],
        &query[..q.value],
    )?;
    Ok(q.cursor)
}

fn main(rt: HostRuntime) -> io::Result<()> {
    let mut room = cases::room();
    let n = inputs::read_full(&mut rt.reader(), &mut room)?;
    let text = &room[..n];
    refusals::each_case(&rt, text, |c, number, _kind| one_case(&rt, text, c, number))?;
    Ok(())
}
