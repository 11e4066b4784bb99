// The calls of a list: their numbers, their lanes, and what is changed in their state.
ghost use Rattle.std.specs.Prelude.{◌≡◌};
ghost use Rattle.refusals_descent.specs.Given.{call_of, call_at, most_of, filled, words_harmed, floats_harmed, behind_changes};

use crate::call::Call;
use cases::{Cursor, Read};

#[tactic(auto, unfolding(crate::specs::Given::call_of))]
fn call_of(xs: [u32; 12]) -> Call
    ensures { result ≡ call_of xs }
{
    Call {
        begins: xs[0] == 1,
        shown: xs[1] == 1,
        dimension: refusals::wide(xs[2]),
        n: refusals::wide(xs[3]),
        k: refusals::wide(xs[4]),
        s: refusals::wide(xs[5]),
        lanes: refusals::wide(xs[6]),
        draws: refusals::wide(xs[7]),
        state_u: refusals::wide(xs[8]),
        state_f: refusals::wide(xs[9]),
        words: refusals::wide(xs[10]),
        floats: refusals::wide(xs[11]),
    }
}

/// Reads the numbers of a call: 1 for a begin and 0 for an iteration, 1 where its state is printed, dimension, n, k, s, and the lengths
/// of the lanes, the draws, the state's words and floats, and scratch.
#[tactic(auto, unfolding(crate::specs::Given::call_at))]
pub fn read_call(text: &[u8], c: Cursor) -> Read<Call>
    ensures { result ≡ call_at text.now c }
{
    let mut xs: [u32; 12] = [0; 12];
    let cursor = cases::read_words(text, c, &mut xs);
    Read {
        value: call_of(xs),
        cursor,
    }
}

/// As many nodes as there may be, in lists of one, and what a call on them asks for.
pub fn most(begins: bool) -> Call
    ensures { result ≡ most_of begins }
{
    Call {
        begins,
        shown: false,
        dimension: 1,
        n: 1024,
        k: 1,
        s: 1,
        lanes: 1024,
        draws: 2048,
        state_u: 300032,
        state_f: 1024,
        words: 528384,
        floats: 528384,
    }
}

/// Fills `count` words from `from` on, as far as they go.
pub fn fill_run(words: &mut [u32], from: usize, count: usize, word: u32)
    ensures { words.new ≡ filled from count word words.old }
{
    let end = from.saturating_add(count).min(words.len());
    for at in from..end {
        words[at] = word;
    }
}

/// Changes words of a state: how many runs, and of each its first place, its length and its word.
pub fn harm_words(text: &[u8], c: Cursor, words: &mut [u32]) -> Cursor
    ensures words_after { words.new ≡ words_harmed text.now c words.old }
    ensures value { result ≡ behind_changes text.now 3 c }
{
    let count = cases::read_size(text, c, 8);
    let mut cursor = count.cursor;
    for _done in 0..count.value {
        let from = cases::read_word(text, cursor);
        let long = cases::read_word(text, from.cursor);
        let word = cases::read_word(text, long.cursor);
        fill_run(words, from.value as usize, long.value as usize, word.value);
        cursor = word.cursor;
    }
    cursor
}

/// Changes floats of a state: how many, and of each its place and its bits.
pub fn harm_floats(text: &[u8], c: Cursor, floats: &mut [f32]) -> Cursor
    ensures floats_after { floats.new ≡ floats_harmed text.now c floats.old }
    ensures value { result ≡ behind_changes text.now 2 c }
{
    let count = cases::read_size(text, c, 8);
    let mut cursor = count.cursor;
    for _done in 0..count.value {
        let at = cases::read_word(text, cursor);
        let bits = cases::read_word(text, at.cursor);
        refusals::put_at(floats, at.value as usize, refusals::float_of(bits.value));
        cursor = bits.cursor;
    }
    cursor
}
