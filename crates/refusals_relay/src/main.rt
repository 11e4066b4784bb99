// Every row of the tables of a relay's move and close, and every clause of a well-formed relay state; stdin says what its numbers are.
#![tactic(auto)]

ghost use Rattle.std.specs.Prelude.{◌≡◌, IfOk};
ghost use Rattle.cases.specs.Text.{behind};
ghost use Rattle.pages.specs.Page.{Puts};
ghost use Rattle.refusals_relay.specs.Given.{words_damaged, floats_damaged};
ghost use Rattle.refusals_relay.specs.Left.{state_left, refused_left, done_left};
ghost use Rattle.refusals_relay.specs.Texts.{moved_text, closed_text};

use cases::Cursor;
use given::{Case, Lent, State};
use refusals::Left;
use rules::Refusal;
use std::io;

mod given;

// What the first place of the reports holds before a close; each further place holds one more.
const REPORTS: u32 = 0xCD00_0000;

// Four jobs on the lanes and unfilled lists of square I: its own three, and one with u = v.
fn opened(words: &mut [u32], floats: &mut [f32]) {
    let nodes: [u32; 8] = [4; 8];
    let dists: [f32; 8] = [rows::EMPTY; 8];
    let mut scratch_u: [u32; 6144] = [0; 6144];
    let mut scratch_f: [f32; 6144] = [0.0; 6144];
    let _ = relay_opening::open(
        1,
        4,
        &[0.0, 1.0, 3.0, 7.0],
        2,
        &nodes,
        &dists,
        &[0, 1, 0, 3, 0, 2, 1, 1],
        words,
        floats,
        &mut scratch_u,
        &mut scratch_f,
    );
}

fn advance(words: &mut [u32], floats: &mut [f32], job: usize, steps: usize) {
    for _ in 0..steps {
        let _ = relay_move::move_job(4, 2, job, words, floats);
    }
}

#[tactic(auto, unfolding(crate::specs::Given::words_damaged, crate::specs::Given::floats_damaged))]
fn damage(s: State, words: &mut [u32], floats: &mut [f32])
    ensures words_after { words.new ≡ words_damaged s words.old }
    ensures floats_after { floats.new ≡ floats_damaged s floats.old }
{
    refusals::put_at(words, s.at, s.word);
    refusals::put_at(words, s.also, s.other);
    refusals::put_at(floats, s.float_at, s.float);
}

// The state in the front of two slices.
fn make(s: State, words: &mut [u32], floats: &mut [f32]) {
    let words_long = words.len().min(1292);
    let floats_long = floats.len().min(328);
    let words = &mut words[..words_long];
    let floats = &mut floats[..floats_long];
    opened(words, floats);
    advance(words, floats, 0, s.first);
    advance(words, floats, 1, s.rest);
    advance(words, floats, 2, s.rest);
    advance(words, floats, 3, s.rest);
    damage(s, words, floats);
}

#[tactic(auto, unfolding(crate::specs::Left::state_left))]
fn same(words: &[u32], floats: &[f32], twin_words: &[u32], twin_floats: &[f32]) -> Left
    ensures { result ≡ state_left words.now floats.now twin_words.now twin_floats.now }
{
    if states::same_words(words, twin_words) && states::same_floats(floats, twin_floats) {
        Left::Untouched
    } else {
        Left::Written
    }
}

fn put_moved(page: &mut [u8], at: usize, answer: Result<(), Refusal>) -> usize
    ensures { Puts at (moved_text answer) page.old result page.new }
{
    match answer {
        Ok(()) => pages::put(page, at, b": moved"),
        Err(r) => refusals::put_refusal(page, at, r),
    }
}

fn told_move(
    rt: &impl Print,
    number: u32,
    answer: Result<(), Refusal>,
    left: Left,
) -> io::Result<()> {
    let mut page: [u8; 128] = [0; 128];
    let case = pages::put_word(&mut page, 0, b"case ", number);
    let call = pages::put(&mut page, case, b", move");
    let behind = put_moved(&mut page, call, answer);
    let end = refusals::put_left(&mut page, behind, left);
    rt.write_all(pages::text(&page, end))
}

// A move on the parts of a state that are as long as the call says, beside a twin of it, and its line.
fn moved(rt: &impl Print, number: u32, l: Lent, s: State) -> io::Result<()> {
    let mut words: [u32; 1293] = [0; 1293];
    let mut floats: [f32; 329] = [0.0; 329];
    make(s, &mut words, &mut floats);
    let twin_words = words;
    let twin_floats = floats;
    let words_long = l.words.min(words.len());
    let floats_long = l.floats.min(floats.len());
    let words = &mut words[..words_long];
    let floats = &mut floats[..floats_long];
    let answer = relay_move::move_job(l.n, l.k, l.job, words, floats);
    let left = same(
        words,
        floats,
        &twin_words[..words_long],
        &twin_floats[..floats_long],
    );
    told_move(rt, number, answer, left)
}

// What became of all places where a close is refused.
#[tactic(auto, unfolding(crate::specs::Left::refused_left))]
fn left_refused(nodes: &[u32], dists: &[f32], reports: &[u32]) -> Left
    ensures { result ≡ refused_left nodes.now dists.now reports.now }
{
    if refusals::kept(reports, 0, REPORTS) {
        refusals::scratch_left(nodes, dists)
    } else {
        Left::Written
    }
}

// What became of the reports behind those of the four jobs.
#[tactic(auto, unfolding(crate::specs::Left::done_left))]
fn left_done(reports: &[u32]) -> Left
    ensures { result ≡ done_left reports.now }
{
    if refusals::kept(reports, 8, REPORTS) {
        Left::Untouched
    } else {
        Left::Written
    }
}

fn put_closed(
    page: &mut [u8],
    at: usize,
    answer: Result<(), Refusal>,
    nodes: &[u32],
    dists: &[f32],
    reports: &[u32],
) -> usize
    ensures { Puts at (closed_text answer nodes.now dists.now reports.now) page.old result page.new }
{
    match answer {
        Ok(()) => {
            let named = pages::put(page, at, b": reports");
            let listed = refusals::put_words(page, named, reports, 8);
            refusals::put_left(page, listed, left_done(reports))
        }
        Err(r) => {
            let behind = refusals::put_refusal(page, at, r);
            refusals::put_left(page, behind, left_refused(nodes, dists, reports))
        }
    }
}

fn told_close(
    rt: &impl Print,
    number: u32,
    answer: Result<(), Refusal>,
    nodes: &[u32],
    dists: &[f32],
    reports: &[u32],
) -> io::Result<()> {
    let mut page: [u8; 256] = [0; 256];
    let case = pages::put_word(&mut page, 0, b"case ", number);
    let call = pages::put(&mut page, case, b", close");
    let end = put_closed(&mut page, call, answer, nodes, dists, reports);
    rt.write_all(pages::text(&page, end))
}

// A close of the parts of a state that are as long as the call says, on junk in places of our own, and its line.
fn closed(rt: &impl Print, number: u32, l: Lent, s: State) -> io::Result<()> {
    let mut words: [u32; 1293] = [0; 1293];
    let mut floats: [f32; 329] = [0.0; 329];
    make(s, &mut words, &mut floats);
    let words = &words[..l.words.min(words.len())];
    let floats = &floats[..l.floats.min(floats.len())];
    let mut nodes: [u32; 9] = [0; 9];
    let mut dists: [f32; 9] = [0.0; 9];
    let mut reports: [u32; 129] = [0; 129];
    let nodes_long = l.nodes.min(nodes.len());
    let dists_long = l.dists.min(dists.len());
    let reports_long = l.reports.min(reports.len());
    let nodes = &mut nodes[..nodes_long];
    let dists = &mut dists[..dists_long];
    let reports = &mut reports[..reports_long];
    refusals::fill_scratch(nodes, dists);
    refusals::fill(reports, REPORTS);
    let answer = relay_close::close(l.n, l.k, words, floats, nodes, dists, reports);
    told_close(rt, number, answer, nodes, dists, reports)
}

// A case of some kind: 1 a move, 2 a close, else both.
#[tactic(auto, unfolding(crate::specs::Given::case_at))]
fn one_case(rt: &impl Print, text: &[u8], c: Cursor, number: u32, kind: u32) -> io::Result<Cursor>
    ensures { IfOk result (λ passed. passed ≡ behind 16 text.now c) }
{
    let case = given::read_case(text, c);
    let Case { lent, state } = case.value;
    if kind != 2 {
        moved(rt, number, lent, state)?;
    }
    if kind != 1 {
        closed(rt, number, lent, state)?;
    }
    Ok(case.cursor)
}

fn main(rt: HostRuntime) -> io::Result<()> {
    let mut room = cases::room();
    let n = inputs::read_full(&mut rt.reader(), &mut room)?;
    let text = &room[..n];
    refusals::each_case(&rt, text, |c, number, kind| {
        one_case(&rt, text, c, number, kind)
    })?;
    Ok(())
}
