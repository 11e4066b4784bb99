// Whether a relay's state is well formed: its jobs, and the room of each list.
#![tactic(auto)]

ghost use Rattle.std.specs.Prelude.{◌≡◌, ◌+◌, ◌*◌, ◌≤◌, length, drop, get_or};
ghost use Rattle.rules.specs.Distance.{zero32};
ghost use Rattle.rules.specs.RelayPlaces.{relay_formed};
ghost use Rattle.zeros.specs.Zeros.{all_below};
ghost use Rattle.jobs.specs.Jobs.{job_test};
ghost use Rattle.relay_state.specs.State.{jobs_test, PendingAll, room_test, room_at, Sized};

use rules::NodeId;

/// Whether each of the first `count` jobs is well formed: 15 words a job, from place 1 on.
fn each_formed(jobs: &[u32], dists: &[f32], count: usize, n: usize) -> bool
    requires { (count ≤ 64) × (length jobs.now ≡ 1024) × (length dists.now ≡ 64) }
    ensures { result ≡ all_below (λ i. job_test n (drop (1 + 15 * i) jobs.now) (get_or dists.now i zero32)) count }
{
    for i in 0..count {
        if !jobs::job_formed(&jobs[1 + 15 * i..], dists[i], n) {
            return false;
        }
    }
    true
}

/// Whether the number of jobs, the jobs, and what lies behind them are well formed.
#[tactic(auto, using(std::proofs::lemmas::Bool::Decides::nat_tests), unfolding(crate::specs::State::jobs_test, rules::specs::Numbers::outside))]
fn jobs_formed(jobs: &[u32], dists: &[f32], n: usize) -> bool
    requires { (length jobs.now ≡ 1024) × (length dists.now ≡ 64) }
    ensures { result ≡ jobs_test n jobs.now dists.now }
{
    let count = jobs[0] as usize;
    !table::outside(1, 64, count)
        && each_formed(jobs, dists, count, n)
        && zeros::words_zero(jobs, 1 + 15 * count)
        && zeros::floats_zero(dists, count)
}

/// How many halves of the first `count` jobs have pushed to node `w`'s list and not yet popped.
fn pending_at(jobs: &[u32], count: usize, w: NodeId) -> usize
    requires { (count ≤ 64) × (length jobs.now ≡ 1024) }
    ensures { PendingAll jobs.now count w.0 result }
{
    let mut total = 0;
    for i in 0..count {
        total += jobs::pending(&jobs[1 + 15 * i..], w);
    }
    total
}

/// Whether a list's room is well formed: `want` entries and no more, the list, and zeros behind it.
#[tactic(auto, using(std::proofs::lemmas::Bool::Decides::nat_tests), unfolding(crate::specs::State::room_test))]
fn room_formed(nodes: &[u32], dists: &[f32], len: usize, want: usize, n: usize) -> bool
    requires { length dists.now ≡ length nodes.now }
    ensures { result ≡ room_test n want len nodes.now dists.now }
{
    len == want
        && len <= nodes.len()
        && zeros::words_zero(nodes, len)
        && zeros::floats_zero(dists, len)
        && formed::list_formed(nodes, dists, len, n)
}

/// Whether the room of every list is well formed, each list at `k` and the halves of the `count` jobs that are pending.
fn rooms_formed(words: &[u32], floats: &[f32], n: usize, k: usize, count: usize) -> bool
    requires { Sized n k words.now floats.now × (count ≤ 64) × (count ≡ get_or words.now (n * (k + 65)) 0) }
    ensures { result ≡ all_below (room_at n k words.now floats.now) n }
{
    let room = k + 64;
    let lens = n * room;
    let jobs = lens + n;
    for w in 0..n {
        let from = w * room;
        let to = from + room;
        let len = words[lens + w] as usize;
        let want = k + pending_at(&words[jobs..], count, NodeId(w as u32));
        if !room_formed(&words[from..to], &floats[from..to], len, want, n) {
            return false;
        }
    }
    true
}

/// Row 12 of a move and a close: whether a relay's state is well formed.
pub fn relay_formed(words: &[u32], floats: &[f32], n: usize, k: usize) -> bool
    requires { Sized n k words.now floats.now }
    ensures { result ≡ relay_formed n k words.now floats.now }
{
    let lens = n * (k + 64);
    let jobs = lens + n;
    jobs_formed(&words[jobs..], &floats[lens..], n)
        && rooms_formed(words, floats, n, k, words[jobs] as usize)
}
