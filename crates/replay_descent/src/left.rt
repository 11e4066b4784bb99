// What the calls of a descent answered and left, beside the list's.
ghost use Rattle.std.specs.Prelude.{◌≡◌};
ghost use Rattle.replay_descent.specs.Left.{compared_with, state_read, beside_at, refused_at, counts_at};

use crate::shape::Shape;
use cases::Cursor;
use tallies::{Difference, Outcome};

// The state beside the list's, whose words and floats are given.
#[tactic(auto, unfolding(crate::specs::Left::compared_with))]
fn compared(
    o: Outcome,
    s: Shape,
    state_u: &[u32],
    state_f: &[f32],
    words: &[u32],
    floats: &[f32],
) -> Outcome
    ensures { result ≡ compared_with o s state_u.now state_f.now words.now floats.now }
{
    let lists = cases::area(s.n, s.k);
    let p = tallies::and(
        o,
        states::same_first(state_u, words, lists),
        Difference::Nodes,
    );
    let q = tallies::and(p, states::same_floats(state_f, floats), Difference::Bits);
    tallies::and(q, states::same_words(state_u, words), Difference::Words)
}

/// The state beside the list's, which is read into `words` and `floats`.
#[tactic(auto, unfolding(crate::specs::Left::beside_at))]
pub fn beside_read(
    text: &[u8],
    o: Outcome,
    s: Shape,
    state_u: &[u32],
    state_f: &[f32],
    words: &mut [u32],
    floats: &mut [f32],
) -> Outcome
    ensures value { result ≡ beside_at text.now o s state_u.now state_f.now words.old floats.old }
    ensures words_after { words.new ≡ (state_read text.now o s words.old floats.old).words }
    ensures floats_after { floats.new ≡ (state_read text.now o s words.old floats.old).floats }
{
    let cursor = states::read_state(text, o.cursor, s.n, s.k, words, floats);
    compared(tallies::at(o, cursor), s, state_u, state_f, words, floats)
}

/// A refused call: the state that the list has for it is passed.
#[tactic(auto, unfolding(crate::specs::Left::refused_at))]
pub fn refused(text: &[u8], o: Outcome, c: Cursor, s: Shape) -> Outcome
    ensures { result ≡ refused_at text.now o c s }
{
    let p = tallies::at(o, kinds::pass_state(text, c, s.n, s.k));
    tallies::and(p, false, Difference::Refused)
}

/// An iteration's cost and total of new, beside the list's.
#[tactic(auto, unfolding(crate::specs::Left::counts_at))]
pub fn counts(text: &[u8], o: Outcome, cost: usize, new: usize) -> Outcome
    ensures { result ≡ counts_at text.now o cost new }
{
    let a = cases::read_word(text, o.cursor);
    let b = cases::read_word(text, a.cursor);
    let p = tallies::at(o, b.cursor);
    let q = tallies::and(p, a.value as usize == cost, Difference::Count);
    tallies::and(q, b.value as usize == new, Difference::Count)
}
