// The common ground of the programs over a relay: places inside a state, and floats by their bits.
#![tactic(auto)]

ghost use Rattle.std.specs.Prelude.{◌≡◌, length};
ghost use Rattle.cases.specs.Text.{words_at, behind};
ghost use Rattle.relays.specs.Places.{list_at, length_at, job_at, words_long, floats_long};
ghost use Rattle.relays.specs.Bits.{bits_of, agreeing};

use cases::{Cursor, Read};

/// A word as a place.
pub fn index(word: u32) -> usize
    ensures { result ≡ word }
{
    word as usize
}

/// Where node `node`'s list starts, in the words and in the floats.
#[tactic(auto, unfolding(crate::specs::Places::list_at))]
pub fn list_at(k: usize, node: usize) -> usize
    ensures { result ≡ list_at k node }
{
    cases::area(node, k.wrapping_add(64))
}

/// The place of the length of node `node`'s list.
#[tactic(auto, unfolding(crate::specs::Places::length_at))]
pub fn length_at(n: usize, k: usize, node: usize) -> usize
    ensures { result ≡ length_at n k node }
{
    cases::area(n, k.wrapping_add(64)).wrapping_add(node)
}

/// The first of job `job`'s 15 words; the number of jobs stands in front of the first job.
#[tactic(auto, unfolding(crate::specs::Places::job_at))]
pub fn job_at(n: usize, k: usize, job: usize) -> usize
    ensures { result ≡ job_at n k job }
{
    let in_front = 1usize.wrapping_add(cases::area(15, job));
    cases::area(n, k.wrapping_add(65)).wrapping_add(in_front)
}

/// How many words a state is.
#[tactic(auto, unfolding(crate::specs::Places::words_long))]
pub fn words_long(n: usize, k: usize) -> usize
    ensures { result ≡ words_long n k }
{
    cases::area(n, k.wrapping_add(65)).wrapping_add(1024)
}

/// How many floats a state is.
#[tactic(auto, unfolding(crate::specs::Places::floats_long))]
pub fn floats_long(n: usize, k: usize) -> usize
    ensures { result ≡ floats_long n k }
{
    cases::area(n, k.wrapping_add(64)).wrapping_add(64)
}

/// The bits of a float; a NaN's count as all ones.
#[tactic(auto, unfolding(crate::specs::Bits::bits_of))]
pub fn bits_of(x: f32) -> u32
    ensures { result ≡ bits_of x }
{
    if x.is_nan() { u32::MAX } else { x.to_bits() }
}

/// Compares the bits of our floats with the next numbers of a list: how many agree, and the place behind.
pub fn compare_bits(text: &[u8], c: Cursor, ours: &[f32]) -> Read<usize>
    ensures at_value { result.value ≡ agreeing ours.now (words_at (length ours.now) text.now c) }
    ensures cursor_value { result.cursor ≡ behind (length ours.now) text.now c }
{
    let mut value = 0;
    let mut cursor = c;
    for &x in ours {
        let w = cases::read_word(text, cursor);
        cursor = w.cursor;
        if w.value == bits_of(x) {
            value += 1;
        }
    }
    Read { value, cursor }
}
