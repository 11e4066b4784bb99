// The common ground of the refusal tests: a case's numbers and runs, junk in lent places, what became of it after a call, and the parts of a line.
#![tactic(auto)]

ghost use Rattle.std.specs.Prelude.{◌≡◌, ℕ, ◌≤◌, length, take, map, slice_set, IfOk};
ghost use Rattle.cases.specs.Text.{words_at, first, Gives};
ghost use Rattle.cases.specs.declared.Cursor.{Cursor};
ghost use Rattle.refusals.specs.Cases.{cases_passed, Leads};
ghost use Rattle.pages.specs.Page.{Puts};
ghost use Rattle.refusals.specs.Texts.{before_place, next_column, refusal_text, graph_text, left_text, words_text, end_text};
ghost use Rattle.refusals.specs.Junk.{next_word, next_float, rising, stands, junk_word, junk_float, scratch_stands, scratch_zero, left_of};
ghost use Rattle.refusals.specs.Given.{wide_of, bits_of, lanes_at, run_at, run_in};

use answers::Said;
use cases::{Cursor, Read};
use rules::Refusal;
use std::io;

// What the first place of each scratch slice holds before a call; each further place holds one more.
const WORDS: u32 = 0xEF00_0000;

const FLOATS: f32 = 1.5;

/// What became of lent places: they stand as they were, they are all zero, or neither.
#[derive(Clone, Copy, Debug, PartialEq, Eq)]
pub enum Left {
    Untouched,
    Zeroed,
    Written,
}

/// A number of a case; the largest word stands for the largest.
#[tactic(auto, unfolding(crate::specs::Given::wide_of))]
pub fn wide(word: u32) -> usize
    ensures { result ≡ wide_of word }
{
    if word == u32::MAX {
        usize::MAX
    } else {
        word as usize
    }
}

/// The float of a case's bits: of NaNs 0x7FC00000 alone is read as one, and any other as 0.0.
#[tactic(auto, unfolding(crate::specs::Given::bits_of))]
pub fn float_of(bits: u32) -> f32
    ensures { result ≡ bits_of bits }
{
    if bits == 0x7FC0_0000 {
        f32::NAN
    } else {
        cases::float(bits)
    }
}

// Reads a run, after its length, to the front of the slice: how many, and the place behind. A run that is longer is a fault.
fn read_run_of<T: Copy, F: Fn(u32) -> T>(
    text: &[u8],
    c: Cursor,
    out: &mut [T],
    of: F,
) -> Read<usize>
    requires { F.IsAlwaysCallable of }
    ensures value_in_bounds { result.value ≤ length out.new }
    ensures value { result ≡ run_at (length out.old) text.now c }
    ensures out_after { (made : ℕ → T) → Gives (F.post of) made
        → out.new ≡ run_in (λ n t d. map made (words_at n t d)) text.now c out.old }
{
    let count = cases::read_size(text, c, out.len());
    let value = count.value;
    let cursor = cases::read_all(text, count.cursor, &mut out[..value], of);
    Read { value, cursor }
}

/// Reads a run of words, after its length, to the front of the slice: how many, and the place behind. A run that is longer is a fault.
pub fn read_run(text: &[u8], c: Cursor, out: &mut [u32]) -> Read<usize>
    ensures value_in_bounds { result.value ≤ length out.new }
    ensures value { result ≡ run_at (length out.old) text.now c }
    ensures out_after { out.new ≡ run_in words_at text.now c out.old }
{
    read_run_of(text, c, out, |word| word)
}

/// Reads a run of floats by their bits, as `read_run` reads words.
pub fn read_lanes(text: &[u8], c: Cursor, out: &mut [f32]) -> Read<usize>
    ensures value_in_bounds { result.value ≤ length out.new }
    ensures value { result ≡ run_at (length out.old) text.now c }
    ensures out_after { out.new ≡ run_in lanes_at text.now c out.old }
{
    read_run_of(text, c, out, float_of)
}

/// What lent places are filled with before a call: each place holds one more than the last.
pub trait Rising: Copy + PartialEq {
    ghost next: { Self → Self };

    /// One more.
    fn next(self) -> Self
        ensures { result ≡ next self };
}

impl Rising for u32 {
    ghost next = { next_word };

    fn next(self) -> u32 {
        self.wrapping_add(1)
    }
}

impl Rising for f32 {
    ghost next = { next_float };

    fn next(self) -> f32 {
        self + 1.0
    }
}

/// Fills lent places: `first`, and one more in each further place.
#[tactic(auto, using(crate::proofs::Laws::filling))]
pub fn fill<T: Rising>(xs: &mut [T], first: T)
    ensures { xs.new ≡ rising T.next first (length xs.old) }
{
    let mut v = first;
    for i in 0..xs.len() {
        xs[i] = v;
        v = v.next();
    }
}

/// Fills both scratch slices with junk.
pub fn fill_scratch(words: &mut [u32], floats: &mut [f32])
    ensures words_after { words.new ≡ rising next_word junk_word (length words.old) }
    ensures floats_after { floats.new ≡ rising next_float junk_float (length floats.old) }
{
    fill(words, WORDS);
    fill(floats, FLOATS);
}

/// Puts a number at a place; a place behind the end changes nothing.
pub fn put_at<T: Copy>(xs: &mut [T], at: usize, x: T)
    ensures { xs.new ≡ slice_set xs.old at x }
{
    if at < xs.len() {
        xs[at] = x;
    }
}

/// Whether every place from `from` on is as `fill` left it. Equal floats that are not zero have equal bits, and a NaN equals none.
#[tactic(auto, using(crate::proofs::Laws::standing))]
pub fn kept<T: Rising>(xs: &[T], from: usize, first: T) -> bool
    ensures { result ≡ stands T.next T.eq from 0 first xs.now }
{
    let mut v = first;
    for i in 0..xs.len() {
        if from <= i && xs[i] != v {
            return false;
        }
        v = v.next();
    }
    true
}

#[tactic(auto, unfolding(crate::specs::Junk::scratch_stands))]
fn scratch_kept(words: &[u32], floats: &[f32]) -> bool
    ensures { result ≡ scratch_stands words.now floats.now }
{
    kept(words, 0, WORDS) && kept(floats, 0, FLOATS)
}

#[tactic(auto, unfolding(crate::specs::Junk::scratch_zero))]
fn zeroed(words: &[u32], floats: &[f32]) -> bool
    ensures { result ≡ scratch_zero words.now floats.now }
{
    replays::all_words(words, 0, 0) && replays::all_zero(floats)
}

/// What became of both scratch slices after `fill_scratch` and a call.
#[tactic(auto, unfolding(crate::specs::Junk::left_of))]
pub fn scratch_left(words: &[u32], floats: &[f32]) -> Left
    ensures { result ≡ left_of words.now floats.now }
{
    if scratch_kept(words, floats) {
        Left::Untouched
    } else if zeroed(words, floats) {
        Left::Zeroed
    } else {
        Left::Written
    }
}

/// Puts a refusal's number and places on a page.
pub fn put_refusal(page: &mut [u8], at: usize, r: Refusal) -> usize
    ensures { Puts at (refusal_text r) page.old result page.new }
{
    let said = Said::from(r);
    let number = pages::put_number(page, at, b": ", said.refusal);
    let first = pages::put_number(page, number, b",", said.first);
    pages::put_number(page, first, b",", said.second)
}

// What stands in front of a place of a graph.
#[tactic(auto, unfolding(crate::specs::Texts::before_place, pages::specs::Page::bytes))]
fn before_place(i: usize, column: usize) -> &'static [u8]
    ensures { result.now ≡ before_place i column }
{
    if i == 0 {
        b": "
    } else if column == 0 {
        b" / "
    } else {
        b","
    }
}

#[tactic(auto, unfolding(crate::specs::Texts::next_column))]
fn next_column(column: usize, index_size: usize) -> usize
    ensures { result ≡ next_column index_size column }
{
    let next = column.wrapping_add(1);
    if next == index_size { 0 } else { next }
}

/// Puts a graph on a page as the settled squares have it: every place of a row, and row after row.
pub fn put_graph(page: &mut [u8], at: usize, graph: &[u32], index_size: usize) -> usize
    ensures { Puts at (graph_text index_size graph.now) page.old result page.new }
{
    let mut column = 0;
    let mut place = pages::put(page, at, b"");
    for (i, &node) in graph.iter().enumerate() {
        place = pages::put_word(page, place, before_place(i, column), node);
        column = next_column(column, index_size);
    }
    place
}

// What is said of lent places at the end of a line.
#[tactic(auto, unfolding(crate::specs::Texts::left_text, pages::specs::Page::bytes))]
fn text_of(left: Left) -> &'static [u8]
    ensures { result.now ≡ left_text left }
{
    match left {
        Left::Untouched => b", untouched\n",
        Left::Zeroed => b", zeroed\n",
        Left::Written => b", written\n",
    }
}

/// Ends a line by what became of the lent places.
pub fn put_left(page: &mut [u8], at: usize, l: Left) -> usize
    ensures { Puts at (left_text l) page.old result page.new }
{
    pages::put(page, at, text_of(l))
}

/// Puts the first `count` words on a page, each behind a space.
pub fn put_words(page: &mut [u8], at: usize, words: &[u32], count: usize) -> usize
    ensures { Puts at (words_text (take count words.now)) page.old result page.new }
{
    let mut place = pages::put(page, at, b"");
    let first = &words[..count.min(words.len())];
    for &word in first {
        place = pages::put_word(page, place, b" ", word);
    }
    place
}

/// Puts on a page how many cases were passed, and the reader's fault.
pub fn put_end(page: &mut [u8], at: usize, passed: u32, c: Cursor) -> usize
    ensures { Puts at (end_text passed c) page.old result page.new }
{
    let cases = pages::put_word(page, at, b"cases: ", passed);
    let fault = pages::put_word(page, cases, b", fault: ", cases::fault_number(c.fault));
    pages::put(page, fault, b"\n")
}

// The last line: how many cases there were, and the reader's fault.
fn say_end(rt: &impl Print, passed: u32, c: Cursor) -> io::Result<()> {
    let mut page: [u8; 64] = [0; 64];
    let end = put_end(&mut page, 0, passed, c);
    rt.write_all(pages::text(&page, end))
}

// Passes each case of a list to `one_case`. A proved loop has to end: it counts its turns, up to more cases than a list has.
fn passed<F: Fn(Cursor, u32, u32) -> io::Result<Cursor>>(
    text: &[u8],
    one_case: F,
) -> io::Result<Read<u32>>
    requires { F.IsAlwaysCallable one_case }
    ensures { (next : Cursor → Cursor) → Leads (F.post one_case) next
        → IfOk result (λ all. all ≡ cases_passed next 65536 text.now 0 first) }
{
    let mut value: u32 = 0;
    let mut cursor = cases::start();
    for _turn in 0..65536usize {
        let case = replays::next_case(text, cursor, value);
        let Some(kind) = case.value else {
            return Ok(Read {
                value,
                cursor: case.cursor,
            });
        };
        value = value.wrapping_add(1);
        cursor = one_case(case.cursor, value, kind)?;
    }
    Ok(Read { value, cursor })
}

/// Passes each case of a list to `one_case`, with the place of its numbers, its own number and its kind; says how many there were, and answers it with the place
/// behind them.
pub fn each_case<F: Fn(Cursor, u32, u32) -> io::Result<Cursor>>(
    rt: &impl Print,
    text: &[u8],
    one_case: F,
) -> io::Result<Read<u32>>
    requires { F.IsAlwaysCallable one_case }
    ensures { (next : Cursor → Cursor) → Leads (F.post one_case) next
        → IfOk result (λ all. all ≡ cases_passed next 65536 text.now 0 first) }
{
    let all = passed(text, one_case)?;
    say_end(rt, all.value, all.cursor)?;
    Ok(all)
}
