// What a search found and left, beside the list's.
ghost use Rattle.std.specs.Prelude.{◌≡◌};
ghost use Rattle.replay_search.specs.Left.{passed_at, beside_at, found_at};

use crate::shape::read_m;
use cases::Cursor;
use tallies::{Difference, JUNK, Outcome};

/// Passes the answer of a case: what differs is known.
#[tactic(auto, unfolding(crate::specs::Left::passed_at))]
pub fn pass_answer(text: &[u8], c: Cursor, differs: Difference) -> Outcome
    ensures { result ≡ passed_at text.now c differs }
{
    let m = read_m(text, c);
    Outcome {
        differs: Some(differs),
        cursor: cases::pass(text, m.cursor, 2 * m.value + 1),
    }
}

// The results and the takings, beside the list's.
#[tactic(auto, unfolding(crate::specs::Left::beside_at))]
fn beside(text: &[u8], c: Cursor, nodes: &[u32], bits: &[u32], takings: usize) -> Outcome
    ensures { result ≡ beside_at text.now c nodes.now bits.now takings }
{
    let a = replays::compare(text, c, nodes);
    let b = replays::compare(text, a.cursor, bits);
    let t = cases::read_word(text, b.cursor);
    let o = tallies::fresh(t.cursor);
    let p = tallies::and(o, a.value.is_none(), Difference::Nodes);
    let q = tallies::and(p, b.value.is_none(), Difference::Bits);
    tallies::and(q, t.value as usize == takings, Difference::Count)
}

/// What was found, beside the list's answer; further places are unchanged.
#[tactic(auto, unfolding(crate::specs::Left::found_at))]
pub fn found(
    text: &[u8],
    c: Cursor,
    m: usize,
    takings: usize,
    nodes: &[u32],
    bits: &[u32],
) -> Outcome
    ensures { result ≡ found_at text.now c m takings nodes.now bits.now }
{
    let listed = read_m(text, c);
    if m != listed.value || nodes.len().min(bits.len()) < m {
        return pass_answer(text, c, Difference::Length);
    }
    let o = beside(text, listed.cursor, &nodes[..m], &bits[..m], takings);
    let p = tallies::and(o, replays::all_words(nodes, m, JUNK), Difference::Beyond);
    tallies::and(p, replays::all_words(bits, m, JUNK), Difference::Beyond)
}
