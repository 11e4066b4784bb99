// A list's descent state, read into the places of ours.
#![tactic(auto)]

ghost use Rattle.std.specs.Prelude.{◌≡◌, ◌++◌, ◌+◌, ◌≤◌, eqb, length, take, drop};
ghost use Rattle.std.specs.List.{list_all, zip};
ghost use Rattle.cases.specs.Text.{words_at, behind};
ghost use Rattle.states.specs.Read.{filled, state, blocks_at, lists_at, state_at};
ghost use Rattle.states.specs.Same.{alike, alike_to, same_bits};

use cases::{Cursor, Fault};

// A context list: its length, and 64 places.
const BLOCK: usize = 65;

/// Reads context lists into places of 65 words each, as many as the slice has; unused places stay.
pub fn read_blocks(text: &[u8], c: Cursor, out: &mut [u32]) -> Cursor
    ensures { filled out.new result ≡ blocks_at text.now c out.old }
{
    let mut cursor = c;
    for i in 0..out.len() / BLOCK {
        let at = BLOCK * i;
        let length = cases::read_size(text, cursor, BLOCK - 1);
        out[at] = length.value as u32;
        let members = &mut out[at + 1..at + 1 + length.value];
        cursor = cases::read_words(text, length.cursor, members);
    }
    if out.len() % BLOCK != 0 {
        return cases::faulted(cursor, Fault::Unexpected);
    }
    cursor
}

// Reads the lists, their nodes to the first `lists` of the words, and the contexts behind them.
fn read_lists(text: &[u8], c: Cursor, lists: usize, words: &mut [u32], floats: &mut [f32]) -> Cursor
    requires { lists ≤ length words.old }
    ensures { state words.new floats.new result ≡ lists_at text.now lists c words.old floats.old }
{
    let (nodes, contexts) = words.split_at_mut(lists);
    let bits = cases::read_words(text, c, nodes);
    let behind = cases::read_floats(text, bits, floats);
    read_blocks(text, behind, contexts)
}

/// Reads the state of `n` lists of `k` into the places of ours; unused places of context lists stay.
pub fn read_state(
    text: &[u8],
    c: Cursor,
    n: usize,
    k: usize,
    words: &mut [u32],
    floats: &mut [f32],
) -> Cursor
    ensures { state words.new floats.new result ≡ state_at text.now n k c words.old floats.old }
{
    let lists = cases::area(n, k);
    let marks = lists + cases::area(260, n);
    if words.len() < marks {
        return cases::faulted(c, Fault::Unexpected);
    }
    let (front, pairs) = words.split_at_mut(marks);
    let cursor = read_lists(text, c, lists, front, floats);
    cases::read_words(text, cursor, pairs)
}

/// Whether two slices hold the same words in their first `count` places, as far as they go.
pub fn same_first(a: &[u32], b: &[u32], count: usize) -> bool
    ensures { result ≡ alike_to eqb count a.now b.now }
{
    a.iter().zip(b).take(count).all(|(x, y)| x == y)
}

/// Whether two slices hold the same words.
pub fn same_words(a: &[u32], b: &[u32]) -> bool
    ensures { result ≡ alike eqb a.now b.now }
{
    a == b
}

// Whether two floats have the same bits; a NaN is as any other.
#[tactic(auto, unfolding(crate::specs::Same::same_bits))]
fn same_bits(a: f32, b: f32) -> bool
    ensures { result ≡ same_bits a b }
{
    if a.is_nan() {
        return b.is_nan();
    }
    !b.is_nan() && a.to_bits() == b.to_bits()
}

// Whether two slices hold the same floats where both have a place.
fn same_beside(a: &[f32], b: &[f32]) -> bool
    ensures { result ≡ list_all (λ p. same_bits p.0 p.1) (zip a.now b.now) }
{
    a.iter().zip(b).all(|(x, y)| same_bits(*x, *y))
}

/// Whether two slices hold the same floats, bit for bit; a NaN is as any other.
pub fn same_floats(a: &[f32], b: &[f32]) -> bool
    ensures { result ≡ alike same_bits a.now b.now }
{
    a.len() == b.len() && same_beside(a, b)
}
