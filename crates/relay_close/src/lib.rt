// The entry `close`: the refusal table, the lists and the reports.
#![tactic(auto)]

ghost use Rattle.std.specs.Prelude.{◌≡◌, true, [], ◌∷◌, ◌+◌, ◌*◌, ◌≤◌, ◌<◌, length, get_or, SomeIff};
ghost use Rattle.rules.specs.Loops.{any_of, first_from, over};
ghost use Rattle.rules.specs.Refusals.{decide, decision_of, holds, not_exactly};
ghost use Rattle.rules.specs.Calls.{relay_words, relay_floats};
ghost use Rattle.rules.specs.Relay.{reports_of};
ghost use Rattle.rules.specs.RelayPlaces.{relay_in};
ghost use Rattle.rules.specs.RelayCall.{close_table};
ghost use Rattle.relay_close.specs.Close.{lent, steps_left, Done, ListsWritten, Closed};

use rules::Refusal;

/// Row 6: whether a buffer has the wrong length.
#[tactic(auto, using(std::proofs::lemmas::Bool::Decides::nat_tests), unfolding(rules::specs::Loops::any_of))]
fn wrong_buffers(
    n: usize,
    k: usize,
    words: usize,
    floats: usize,
    nodes: usize,
    distances: usize,
    reports: usize,
) -> bool
    requires { (n ≤ 1024) × (k ≤ 64) }
    ensures { result ≡ any_of holds (not_exactly (relay_words n k) words ∷ not_exactly (relay_floats n k) floats ∷ not_exactly (n * k) nodes ∷ not_exactly (n * k) distances ∷ not_exactly 128 reports ∷ []) }
{
    words != n * (k + 65) + 1024
        || floats != n * (k + 64) + 64
        || nodes != n * k
        || distances != n * k
        || reports != 128
}

/// The lowest of the first `count` jobs that has steps left.
fn lowest_unfinished(words: &[u32], n: usize, k: usize, count: usize) -> Option<usize>
    requires { (n ≤ 1024) × (k ≤ 64) × (length words.now ≡ relay_words n k) × (count ≤ 64) }
    ensures { let at = first_from (steps_left n k words.now) 0 count in SomeIff result (at < count) at }
{
    let jobs = n * (k + 64) + n;
    for i in 0..count {
        if words[jobs + 1 + 15 * i + 2] != 8 {
            return Some(i);
        }
    }
    None
}

/// The rows of the table.
fn judge(
    n: usize,
    k: usize,
    words: &[u32],
    floats: &[f32],
    nodes: &[u32],
    distances: &[f32],
    reports: &[u32],
) -> Result<(), Refusal>
    ensures { decision_of result ≡ decide (close_table (lent n k words.now floats.now nodes.now distances.now reports.now)) }
{
    if table::outside(2, 1024, n) {
        return Err(Refusal::Nodes);
    }
    if table::outside(1, 64, k) {
        return Err(Refusal::Parameter);
    }
    if wrong_buffers(
        n,
        k,
        words.len(),
        floats.len(),
        nodes.len(),
        distances.len(),
        reports.len(),
    ) {
        return Err(Refusal::Buffer);
    }
    if !relay_state::relay_formed(words, floats, n, k) {
        return Err(Refusal::State);
    }
    let count = words[n * (k + 64) + n] as usize;
    if let Some(at) = lowest_unfinished(words, n, k, count) {
        return Err(Refusal::Step(at));
    }
    Ok(())
}

/// Writes the lists, k entries each, one behind the other.
fn write_lists(
    words: &[u32],
    floats: &[f32],
    n: usize,
    k: usize,
    nodes: &mut [u32],
    distances: &mut [f32],
)
    requires { Done n k words.now floats.now × (length nodes.old ≡ n * k) × (length distances.old ≡ n * k) }
    ensures { ListsWritten (relay_in n k words.now floats.now).lists nodes.new distances.new }
{
    for w in 0..n {
        let from = w * (k + 64);
        let at = w * k;
        buffers::copy_all(&words[from..from + k], &mut nodes[at..at + k]);
        buffers::copy_all(&floats[from..from + k], &mut distances[at..at + k]);
    }
}

/// Writes each job's two reports to the front, two a job.
fn write_reports(words: &[u32], floats: &[f32], n: usize, k: usize, reports: &mut [u32])
    requires { Done n k words.now floats.now × (length reports.old ≡ 128) × (get_or words.now (n * (k + 64) + n) 0 ≤ 64) }
    ensures { reports.new ≡ over (length (reports_of (relay_in n k words.now floats.now).jobs)) (reports_of (relay_in n k words.now floats.now).jobs) reports.old }
{
    let jobs = n * (k + 64) + n;
    let count = words[jobs] as usize;
    for i in 0..count {
        let at = jobs + 1 + 15 * i;
        reports[2 * i] = words[at + 3];
        reports[2 * i + 1] = words[at + 5];
    }
}

/// Closes a relay whose jobs are all finished: rows 2, 4, 6, 12 and 13. Nothing is cut, and the state stays as it is.
pub fn close(
    n: usize,
    k: usize,
    state_u: &[u32],
    state_f: &[f32],
    nodes: &mut [u32],
    distances: &mut [f32],
    reports: &mut [u32],
) -> Result<(), Refusal>
    ensures { Closed (lent n k state_u.now state_f.now nodes.old distances.old reports.old) result nodes.new distances.new reports.new }
{
    judge(n, k, state_u, state_f, nodes, distances, reports)?;
    write_lists(state_u, state_f, n, k, nodes, distances);
    write_reports(state_u, state_f, n, k, reports);
    Ok(())
}
