// The entry `move_job`: the refusal table, and one step of a job in the relay's state.
#![tactic(auto)]

ghost use Rattle.std.specs.Prelude.{◌≡◌, true, false, [], ◌∷◌, ◌+◌, ◌*◌, ◌≤◌, ◌<◌, eqb, length, get_or};
ghost use Rattle.rules.specs.Loops.{any_of};
ghost use Rattle.rules.specs.Refusals.{decide, decision_of, holds, not_exactly};
ghost use Rattle.rules.specs.Calls.{relay_words, relay_floats};
ghost use Rattle.rules.specs.Relay.{is_finished, job_at};
ghost use Rattle.rules.specs.RelayPlaces.{stage_in, relay_in, relay_formed};
ghost use Rattle.rules.specs.RelayCall.{move_table};
ghost use Rattle.relay_state.specs.State.{Sized};
ghost use Rattle.halves.specs.Halves.{NextFlags};
ghost use Rattle.relay_move.specs.Moves.{list_in, Room, ListStepped, HalfReady, HalfMoved, Stepped, no_step};
ghost use Rattle.relay_move.specs.Move.{lent, Moved};

use halves::Flags;
use rules::{Neighbor, NodeId, Refusal};

/// The next step of half a job on node `node`'s list, in the list's room, and the list's new length; and what the half keeps.
fn list_step(
    words: &mut [u32],
    floats: &mut [f32],
    n: usize,
    k: usize,
    node: NodeId,
    e: Neighbor,
    equal: bool,
    steps: usize,
    flags: Flags,
) -> Flags
    requires sized { Sized n k words.old floats.old × Room n k words.old floats.old node.0 }
    requires steps_bound { (steps ≤ 3) × (steps ≡ 1 → flags.taken ≡ true → get_or words.old (n * (k + 64) + node.0) 0 < k + 64) }
    ensures flags { NextFlags k equal e (list_in n k words.old floats.old node.0) (stage_in steps flags.taken flags.longer) result }
    ensures listed { ListStepped n k words.old floats.old node.0 e (stage_in steps flags.taken flags.longer) words.new floats.new }
{
    let room = k + 64;
    let w = node.0 as usize;
    let from = w * room;
    let to = from + room;
    let at = n * room + w;
    let len = words[at] as usize;
    let nodes = &mut words[from..to];
    let dists = &mut floats[from..to];
    let next = halves::next_flags(nodes, dists, len, k, e, equal, steps, flags);
    let taken = u32::from(flags.taken);
    let longer = u32::from(flags.longer);
    let m = halves::next_list(nodes, dists, len, e, steps, taken, longer);
    words[at] = m as u32;
    next
}

/// One step of the half of job `job` whose words are at `half`: it offers `other` to node `node`'s list.
fn move_half(
    words: &mut [u32],
    floats: &mut [f32],
    n: usize,
    k: usize,
    job: usize,
    node: NodeId,
    other: NodeId,
    half: usize,
    steps: usize,
)
    requires { HalfReady n k words.old floats.old job node.0 half steps }
    ensures { HalfMoved n k words.old floats.old job node.0 other.0 half steps words.new floats.new }
{
    let lens = n * (k + 64);
    let at = lens + n + 1 + 15 * job;
    let end = at + 15;
    let flags = Flags {
        taken: words[at + half] == 1,
        longer: words[at + half + 1] == 1,
    };
    let e = Neighbor {
        node: other,
        distance: floats[lens + job],
    };
    let equal = node.0 == other.0;
    let next = list_step(words, floats, n, k, node, e, equal, steps, flags);
    jobs::keep(
        &mut words[at..end],
        half,
        u32::from(next.taken),
        u32::from(next.longer),
    );
}

/// The next step of job `job`, which is not finished: of its first half, or where that is done of its second
/// (hora's `update`, one of the eight steps that its locks leave whole).
fn step(words: &mut [u32], floats: &mut [f32], n: usize, k: usize, job: usize)
    requires sized { Sized n k words.old floats.old × (relay_formed n k words.old floats.old ≡ true) }
    requires job_in_bounds { (job < 64) × (job < length (relay_in n k words.old floats.old).jobs) × (is_finished (job_at (relay_in n k words.old floats.old) job) ≡ false) }
    ensures { Stepped n k words.old floats.old job words.new floats.new }
{
    let at = n * (k + 64) + n + 1 + 15 * job;
    let u = NodeId(words[at]);
    let v = NodeId(words[at + 1]);
    let steps = words[at + 2] as usize;
    if steps < 4 {
        move_half(words, floats, n, k, job, u, v, 3, steps);
    } else {
        move_half(words, floats, n, k, job, v, u, 5, steps - 4);
    }
}

/// Row 6 of the state: whether its words or its floats have the wrong length.
#[tactic(auto, using(std::proofs::lemmas::Bool::Decides::nat_tests), unfolding(rules::specs::Loops::any_of))]
fn wrong_state(n: usize, k: usize, words: usize, floats: usize) -> bool
    requires { (n ≤ 1024) × (k ≤ 64) }
    ensures { result ≡ any_of holds (not_exactly (relay_words n k) words ∷ not_exactly (relay_floats n k) floats ∷ []) }
{
    words != n * (k + 65) + 1024 || floats != n * (k + 64) + 64
}

/// Whether job `job` is absent, or has its eight steps done.
#[tactic(auto, using(std::proofs::lemmas::Bool::Decides::nat_tests), unfolding(crate::specs::Moves::no_step))]
fn no_step(words: &[u32], n: usize, k: usize, job: usize) -> bool
    requires { (n ≤ 1024) × (k ≤ 64) × (length words.now ≡ relay_words n k) × (get_or words.now (n * (k + 64) + n) 0 ≤ 64) }
    ensures { result ≡ no_step n k words.now job }
{
    let jobs = n * (k + 64) + n;
    let count = words[jobs] as usize;
    count <= job || words[jobs + 1 + 15 * job + 2] == 8
}

/// The rows of the table.
fn judge(n: usize, k: usize, job: usize, words: &[u32], floats: &[f32]) -> Result<(), Refusal>
    ensures { decision_of result ≡ decide (move_table (lent n k job words.now floats.now)) }
{
    if table::outside(2, 1024, n) {
        return Err(Refusal::Nodes);
    }
    if table::outside(1, 64, k) {
        return Err(Refusal::Parameter);
    }
    if wrong_state(n, k, words.len(), floats.len()) {
        return Err(Refusal::Buffer);
    }
    if !relay_state::relay_formed(words, floats, n, k) {
        return Err(Refusal::State);
    }
    if no_step(words, n, k, job) {
        return Err(Refusal::Step(job));
    }
    Ok(())
}

/// Moves a relay by one step of job `job`: rows 2, 4, 6, 12 and 13 (hora's `update`, under its locks, one step of it).
pub fn move_job(
    n: usize,
    k: usize,
    job: usize,
    state_u: &mut [u32],
    state_f: &mut [f32],
) -> Result<(), Refusal>
    ensures { Moved (lent n k job state_u.old state_f.old) result state_u.new state_f.new }
{
    judge(n, k, job, state_u, state_f)?;
    step(state_u, state_f, n, k, job);
    Ok(())
}
