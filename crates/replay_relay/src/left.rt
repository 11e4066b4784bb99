// What a move and a close left, beside the list's.
ghost use Rattle.std.specs.Prelude.{◌≡◌, slice_index_or};
ghost use Rattle.tallies.specs.Tallies.{junk};
ghost use Rattle.replay_relay.specs.Left.{beside_at, outside_at, room_at, left_at, concerned_in, reported_at};

use crate::shape::{Shape, read_entries};
use tallies::{Difference, JUNK, Outcome};

/// The outcome with two slices beside the list's: nodes, and distances by their bits.
#[tactic(auto, unfolding(crate::specs::Left::beside_at))]
pub fn beside(text: &[u8], o: Outcome, nodes: &[u32], dists: &[f32]) -> Outcome
    ensures { result ≡ beside_at text.now o nodes.now dists.now }
{
    let a = replays::compare(text, o.cursor, nodes);
    let b = relays::compare_bits(text, a.cursor, dists);
    let p = tallies::at(o, b.cursor);
    let q = tallies::and(p, a.value.is_none(), Difference::Nodes);
    tallies::and(q, b.value == dists.len(), Difference::Bits)
}

// A list that our places have no room for; the list's entries are passed.
#[tactic(auto, unfolding(crate::specs::Left::outside_at))]
fn outside(text: &[u8], o: Outcome, long: usize) -> Outcome
    ensures { result ≡ outside_at text.now o long }
{
    let p = tallies::at(o, cases::pass(text, o.cursor, cases::area(2, long)));
    tallies::and(p, false, Difference::Length)
}

// A list in its room, of as many entries as the list of answers says.
#[tactic(auto, unfolding(crate::specs::Left::room_at))]
fn in_room(
    text: &[u8],
    o: Outcome,
    from: usize,
    long: usize,
    words: &[u32],
    floats: &[f32],
) -> Outcome
    ensures { result ≡ room_at text.now o from long words.now floats.now }
{
    let room = words.len().min(floats.len());
    if room < long || room - long < from {
        return outside(text, o, long);
    }
    let to = from + long;
    beside(text, o, &words[from..to], &floats[from..to])
}

// The word at a place; junk where there is none.
fn word_at(words: &[u32], at: usize) -> u32
    ensures { result ≡ slice_index_or words.now at junk }
{
    words.get(at).copied().unwrap_or(JUNK)
}

/// The list of node `node` as a move left it, beside the list's.
#[tactic(auto, unfolding(crate::specs::Left::left_at))]
pub fn left(
    text: &[u8],
    o: Outcome,
    s: Shape,
    node: usize,
    words: &[u32],
    floats: &[f32],
) -> Outcome
    ensures { result ≡ left_at text.now o s node words.now floats.now }
{
    let len = read_entries(text, o.cursor);
    let p = tallies::at(o, len.cursor);
    let ours = word_at(words, relays::length_at(s.n, s.k, node));
    let q = tallies::and(p, ours == len.value as u32, Difference::Length);
    let from = relays::list_at(s.k, node);
    in_room(text, q, from, len.value, words, floats)
}

/// The node whose list a job's last step concerned: u in its first four steps, v in its last four.
#[tactic(auto, unfolding(crate::specs::Left::concerned_in))]
pub fn concerned(s: Shape, job: usize, jobs: &[u32], words: &[u32]) -> usize
    ensures { result ≡ concerned_in s job jobs.now words.now }
{
    let steps = relays::job_at(s.n, s.k, job).wrapping_add(2);
    let u = cases::area(2, job);
    let at = if word_at(words, steps) <= 4 {
        u
    } else {
        u.wrapping_add(1)
    };
    relays::index(word_at(jobs, at))
}

/// The reports beside the list's; further places are unchanged.
#[tactic(auto, unfolding(crate::specs::Left::reported_at))]
pub fn reported(text: &[u8], o: Outcome, count: usize, reports: &[u32]) -> Outcome
    ensures { result ≡ reported_at text.now o count reports.now }
{
    let long = count.min(reports.len());
    let a = replays::compare(text, o.cursor, &reports[..long]);
    let p = tallies::at(o, a.cursor);
    let q = tallies::and(p, a.value.is_none(), Difference::Count);
    tallies::and(
        q,
        replays::all_words(reports, long, JUNK),
        Difference::Beyond,
    )
}
