// A call of `begin` or `iterate` on lent places, and its line: what it answered, and what became of the places.
ghost use Rattle.std.specs.Prelude.{◌≡◌, ◌≤◌, length, slice_set, replicate};
ghost use Rattle.rules.specs.Rows.{empty_distance};
ghost use Rattle.rules.specs.Refusals.{said_of};
ghost use Rattle.rules.specs.DescentCall.{iterate_said};
ghost use Rattle.descent.specs.Descent as descents;
ghost use Rattle.iterate.specs.Iterate.{iterate_left};
ghost use Rattle.refusals_descent.specs.Left.{stands_as, left_by};
ghost use Rattle.refusals_descent.specs.State.{with_context, formed_words, usual_words, usual_floats, is_usual, words_given, floats_given};
ghost use Rattle.refusals_descent.specs.Outcome.{uncounted, outcome_of, left_of};

use crate::given;
use refusals::{Left, put_at};
use rules::{IterateCounts, Refusal};
use std::io;

// What the first places of a begin's state hold before the call; each further place holds one more.
const WORDS: u32 = 0xCD00_0000;

const FLOATS: f32 = 2.5;

/// Which entry is called, whether the state that it leaves is printed, the numbers, and how long each slice is that it lends.
#[derive(Clone, Copy)]
pub struct Call {
    pub begins: bool,
    pub shown: bool,
    pub dimension: usize,
    pub n: usize,
    pub k: usize,
    pub s: usize,
    pub lanes: usize,
    pub draws: usize,
    pub state_u: usize,
    pub state_f: usize,
    pub words: usize,
    pub floats: usize,
}

// Writes an entry of a list, where there is such a place.
fn put_entry(words: &mut [u32], floats: &mut [f32], at: usize, node: u32, distance: f32)
    ensures words_after { words.new ≡ slice_set words.old at node }
    ensures floats_after { floats.new ≡ slice_set floats.old at distance }
{
    put_at(words, at, node);
    put_at(floats, at, distance);
}

// The context of node 0: a new and a reversed-new member.
#[tactic(auto, unfolding(crate::specs::State::with_context))]
fn put_context(words: &mut [u32], lists: usize, n: usize)
    requires { lists ≤ 4294967296 }
    ensures { words.new ≡ with_context lists n words.old }
{
    put_at(words, lists, 1);
    put_at(words, lists + 1, 1);
    put_at(words, lists + 130, 1);
    if n > 2 {
        put_at(words, lists + 131, 2);
    }
}

// Lists 0 and 3 of the usual state; the others stay unfilled.
#[tactic(auto, unfolding(crate::specs::State::usual_words, crate::specs::State::usual_floats))]
fn put_lists(words: &mut [u32], floats: &mut [f32])
    ensures words_after { words.new ≡ usual_words words.old }
    ensures floats_after { floats.new ≡ usual_floats floats.old }
{
    put_entry(words, floats, 0, 1, 1.0);
    put_entry(words, floats, 1, 2, 9.0);
    put_entry(words, floats, 6, 2, 16.0);
}

#[tactic(auto, unfolding(crate::specs::State::formed_words))]
fn write_formed(c: Call, words: &mut [u32], floats: &mut [f32])
    ensures words_after { words.new ≡ formed_words c.n c.k (length words.old) }
    ensures floats_after { floats.new ≡ replicate (length floats.old) empty_distance }
{
    words.fill(0);
    floats.fill(rows::EMPTY);
    if c.n > 1024 {
        return;
    }
    let lists = cases::area(c.n, c.k);
    given::fill_run(words, 0, lists, c.n as u32);
    put_context(words, lists, c.n);
}

#[tactic(auto, unfolding(crate::specs::State::is_usual))]
fn is_usual(c: Call) -> bool
    ensures { result ≡ is_usual c }
{
    c.n == 4 && c.k == 2
}

/// Writes the state that a call is lent: junk for a begin; for an iteration unfilled lists (the usual ones where it has four nodes and k
/// 2), and node 0 with new 1 and reversed-new 2, or 0 where there is no node 2.
#[tactic(auto, unfolding(crate::specs::State::words_given, crate::specs::State::floats_given))]
pub fn write_state(c: Call, words: &mut [u32], floats: &mut [f32])
    ensures words_after { words.new ≡ words_given c (length words.old) }
    ensures floats_after { floats.new ≡ floats_given c (length floats.old) }
{
    if c.begins {
        refusals::fill(words, WORDS);
        refusals::fill(floats, FLOATS);
        return;
    }
    write_formed(c, words, floats);
    if is_usual(c) {
        put_lists(words, floats);
    }
}

fn put_nonzero(page: &mut [u8], at: usize, words: &[u32]) -> usize {
    let mut place = at;
    for (i, &word) in words.iter().enumerate() {
        if word != 0 {
            let named = pages::put_number(page, place, b" ", i);
            place = pages::put_word(page, named, b"=", word);
        }
    }
    place
}

// The list nodes, and each word behind them that is not zero, with its place.
fn put_state(page: &mut [u8], at: usize, c: Call, state_u: &[u32]) -> usize {
    if !c.shown {
        return at;
    }
    let (lists, contexts) = state_u.split_at(cases::area(c.n, c.k).min(state_u.len()));
    let behind = refusals::put_graph(page, at, lists, c.k);
    put_nonzero(page, behind, contexts)
}

fn put_counts(page: &mut [u8], at: usize, c: Call, cost: usize, new: usize) -> usize {
    if c.begins {
        return pages::put(page, at, b": done");
    }
    let behind = pages::put_number(page, at, b": ", cost);
    pages::put_number(page, behind, b",", new)
}

fn put_answer(
    page: &mut [u8],
    at: usize,
    c: Call,
    answer: Result<IterateCounts, Refusal>,
    state_u: &[u32],
) -> usize {
    match answer {
        Ok(IterateCounts { cost, new }) => {
            let behind = put_counts(page, at, c, cost, new);
            put_state(page, behind, c, state_u)
        }
        Err(r) => refusals::put_refusal(page, at, r),
    }
}

// Whether the state stands as it was given.
#[tactic(auto, unfolding(crate::specs::Left::stands_as))]
fn stands(state_u: &[u32], state_f: &[f32], given_u: &[u32], given_f: &[f32]) -> bool
    ensures { result ≡ stands_as state_u.now state_f.now given_u.now given_f.now }
{
    states::same_words(state_u, given_u) && states::same_floats(state_f, given_f)
}

// What became of the lent places: a refusal leaves the state too.
#[tactic(auto, unfolding(crate::specs::Left::left_by))]
fn left(answer: Result<IterateCounts, Refusal>, stands: bool, words: &[u32], floats: &[f32]) -> Left
    ensures { result ≡ left_by answer stands words.now floats.now }
{
    match answer {
        Ok(_) => refusals::scratch_left(words, floats),
        Err(_) if stands => refusals::scratch_left(words, floats),
        Err(_) => Left::Written,
    }
}

fn put_number(page: &mut [u8], c: Call, number: u32) -> usize {
    if c.begins {
        return pages::put_word(page, 0, b"begin ", number);
    }
    pages::put_word(page, 0, b"iterate ", number)
}

// The line of a call.
fn say(
    rt: &impl Print,
    number: u32,
    c: Call,
    answer: Result<IterateCounts, Refusal>,
    state_u: &[u32],
    left: Left,
) -> io::Result<()> {
    let mut page: [u8; 4096] = [0; 4096];
    let call = put_number(&mut page, c, number);
    let behind = put_answer(&mut page, call, c, answer, state_u);
    let end = refusals::put_left(&mut page, behind, left);
    rt.write_all(pages::text(&page, end))
}

// The answer of a begin, which has no counts.
fn uncounted(begun: Result<(), Refusal>) -> Result<IterateCounts, Refusal>
    ensures { iterate_said result ≡ uncounted (said_of begun) }
{
    match begun {
        Ok(()) => Ok(IterateCounts { cost: 0, new: 0 }),
        Err(r) => Err(r),
    }
}

fn asked(
    c: Call,
    lanes: &[f32],
    draws: &[u32],
    state_u: &mut [u32],
    state_f: &mut [f32],
    words: &mut [u32],
    floats: &mut [f32],
) -> Result<IterateCounts, Refusal>
    ensures { iterate_left result state_u.new state_f.new words.new floats.new ≡ outcome_of c lanes.now draws.now state_u.old state_f.old words.old floats.old }
{
    if c.begins {
        let begun = descent::begin(
            c.dimension,
            c.n,
            lanes,
            c.k,
            c.s,
            draws,
            state_u,
            state_f,
            words,
            floats,
        );
        return uncounted(begun);
    }
    iterate::iterate(
        c.dimension,
        c.n,
        lanes,
        c.k,
        c.s,
        draws,
        state_u,
        state_f,
        words,
        floats,
    )
}

/// The call on the slices it lends, scratch full of junk; `given_u` and `given_f` are its state as it was. Its line is said at once, behind the call: where that
/// fails, the slices are as the call left them.
pub fn called(
    rt: &impl Print,
    number: u32,
    c: Call,
    lanes: &[f32],
    draws: &[u32],
    given_u: &[u32],
    given_f: &[f32],
    state_u: &mut [u32],
    state_f: &mut [f32],
    words: &mut [u32],
    floats: &mut [f32],
) -> io::Result<()>
    ensures { descents.left state_u.new state_f.new words.new floats.new ≡ left_of c lanes.now draws.now state_u.old state_f.old (length words.old) (length floats.old) }
{
    refusals::fill_scratch(words, floats);
    let answer = asked(c, lanes, draws, state_u, state_f, words, floats);
    let as_given = stands(state_u, state_f, given_u, given_f);
    let left = left(answer, as_given, words, floats);
    say(rt, number, c, answer, state_u, left)
}
