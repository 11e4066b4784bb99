// Every row of the table of a relay's `open`, at its edges and beside the rows after it; stdin says what its numbers are.
#![tactic(auto)]

ghost use Rattle.std.specs.Prelude.{◌≡◌, IfOk};
ghost use Rattle.pages.specs.Page.{Puts};
ghost use Rattle.refusals_open.specs.Given.{behind_case};
ghost use Rattle.refusals_open.specs.Left.{refused_left};
ghost use Rattle.refusals_open.specs.Texts.{rest_text};

use cases::Cursor;
use given::Case;
use refusals::Left;
use rules::Refusal;
use std::io;

mod given;

// What became of the state and of scratch where the call is refused.
#[tactic(auto, unfolding(crate::specs::Left::refused_left, crate::specs::Left::with_state))]
fn left_refused(words: &[u32], floats: &[f32], scratch_u: &[u32], scratch_f: &[f32]) -> Left
    ensures { result ≡ refused_left words.now floats.now scratch_u.now scratch_f.now }
{
    match refusals::scratch_left(words, floats) {
        Left::Untouched => refusals::scratch_left(scratch_u, scratch_f),
        Left::Zeroed | Left::Written => Left::Written,
    }
}

// The rest of a call's line.
fn put_rest(
    page: &mut [u8],
    at: usize,
    answer: Result<(), Refusal>,
    words: &[u32],
    floats: &[f32],
    scratch_u: &[u32],
    scratch_f: &[f32],
) -> usize
    ensures { Puts at (rest_text answer words.now floats.now scratch_u.now scratch_f.now) page.old result page.new }
{
    match answer {
        Ok(()) => {
            let behind = pages::put(page, at, b": done");
            refusals::put_left(page, behind, refusals::scratch_left(scratch_u, scratch_f))
        }
        Err(r) => {
            let behind = refusals::put_refusal(page, at, r);
            let left = left_refused(words, floats, scratch_u, scratch_f);
            refusals::put_left(page, behind, left)
        }
    }
}

fn told(
    rt: &impl Print,
    number: u32,
    answer: Result<(), Refusal>,
    words: &[u32],
    floats: &[f32],
    scratch_u: &[u32],
    scratch_f: &[f32],
) -> io::Result<()> {
    let mut page: [u8; 128] = [0; 128];
    let case = pages::put_word(&mut page, 0, b"case ", number);
    let end = put_rest(&mut page, case, answer, words, floats, scratch_u, scratch_f);
    rt.write_all(pages::text(&page, end))
}

// The call on given lists, on junk in places of our own that are as long as it says, and its line.
fn called(
    rt: &impl Print,
    number: u32,
    case: Case,
    lanes: &[f32],
    nodes: &[u32],
    dists: &[f32],
    jobs: &[u32],
) -> io::Result<()> {
    let c = case.call;
    let mut words: [u32; 1540] = [0; 1540];
    let mut floats: [f32; 576] = [0.0; 576];
    let mut scratch_u: [u32; 6145] = [0; 6145];
    let mut scratch_f: [f32; 6145] = [0.0; 6145];
    let words_long = c.words.min(words.len());
    let floats_long = c.floats.min(floats.len());
    let scratch_u_long = c.scratch_u.min(scratch_u.len());
    let scratch_f_long = c.scratch_f.min(scratch_f.len());
    let words = &mut words[..words_long];
    let floats = &mut floats[..floats_long];
    let scratch_u = &mut scratch_u[..scratch_u_long];
    let scratch_f = &mut scratch_f[..scratch_f_long];
    refusals::fill_scratch(words, floats);
    refusals::fill_scratch(scratch_u, scratch_f);
    let answer = relay_opening::open(
        c.dimension,
        c.n,
        lanes,
        c.k,
        nodes,
        dists,
        jobs,
        words,
        floats,
        scratch_u,
        scratch_f,
    );
    told(rt, number, answer, words, floats, scratch_u, scratch_f)
}

// A call on given lanes and jobs, on lists as long as it says that are unfilled but for two entries.
fn lend(rt: &impl Print, number: u32, case: Case, lanes: &[f32], jobs: &[u32]) -> io::Result<()> {
    let mut nodes: [u32; 256] = [4; 256];
    let mut dists: [f32; 256] = [rows::EMPTY; 256];
    refusals::put_at(&mut nodes, case.first.at, case.first.node);
    refusals::put_at(&mut dists, case.first.at, case.first.dist);
    refusals::put_at(&mut nodes, case.second.at, case.second.node);
    refusals::put_at(&mut dists, case.second.at, case.second.dist);
    let nodes = &nodes[..case.call.nodes.min(nodes.len())];
    let dists = &dists[..case.call.dists.min(dists.len())];
    called(rt, number, case, lanes, nodes, dists, jobs)
}

// A case: its numbers and two entries, then lanes and jobs, each after their number.
#[tactic(auto, unfolding(crate::specs::Given::behind_case))]
fn one_case(rt: &impl Print, text: &[u8], c: Cursor, number: u32) -> io::Result<Cursor>
    ensures { IfOk result (λ behind. behind ≡ behind_case text.now c) }
{
    let case = given::read_case(text, c);
    let mut lanes: [f32; 1025] = [0.0; 1025];
    let mut jobs: [u32; 130] = [0; 130];
    let l = refusals::read_lanes(text, case.cursor, &mut lanes);
    let j = refusals::read_run(text, l.cursor, &mut jobs);
    lend(rt, number, case.value, &lanes[..l.value], &jobs[..j.value])?;
    Ok(j.cursor)
}

fn main(rt: HostRuntime) -> io::Result<()> {
    let mut room = cases::room();
    let n = inputs::read_full(&mut rt.reader(), &mut room)?;
    let text = &room[..n];
    refusals::each_case(&rt, text, |c, number, _kind| one_case(&rt, text, c, number))?;
    Ok(())
}
