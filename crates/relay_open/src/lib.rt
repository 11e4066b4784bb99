// The state that `open` writes: that of a relay whose jobs have no step done.
#![tactic(auto)]

ghost use Rattle.std.specs.Prelude.{◌≡◌, cond, ◌+◌, ◌*◌, ◌≤◌, ◌<◌, eqb, length};
ghost use Rattle.rules.specs.Loops.{each, part};
ghost use Rattle.rules.specs.Distance.{zero32};
ghost use Rattle.rules.specs.Refusals.{job_count};
ghost use Rattle.rules.specs.Relay.{opened};
ghost use Rattle.rules.specs.Places.{padded, lists_in};
ghost use Rattle.metrics.specs.Counters.{between};
ghost use Rattle.relay_state.specs.State.{Sized};
ghost use Rattle.relay_open.specs.Open.{JobsIn, JobsWritten, ListsPut, DistsPut, StateWritten};

use metrics::Counters;
use rules::NodeId;

/// Writes a list to the front of its room, and zeros behind it.
fn put_room<T: Copy>(list: &[T], room: &mut [T], zero: T)
    requires long { length list.now ≤ length room.old }
    requires copies { T.is_infallible zero × ((y : T) → T.is_clone zero y → y ≡ zero) }
    ensures { room.new ≡ padded (length room.old) zero list.now }
{
    let k = list.len();
    buffers::copy_all(list, &mut room[..k]);
    room[k..].fill(zero);
}

/// Writes `n` lists of `k` places, each to a room of its own.
fn put_rooms<T: Copy>(n: usize, k: usize, lists: &[T], rooms: &mut [T], zero: T)
    requires long { (n ≤ 1024) × (k ≤ 64) × (length lists.now ≡ n * k) × (length rooms.old ≡ n * (k + 64)) }
    requires copies { T.is_infallible zero × ((y : T) → T.is_clone zero y → y ≡ zero) }
    ensures { rooms.new ≡ each (λ w. padded (k + 64) zero (part k w lists.now)) n }
{
    let room = k + 64;
    for w in 0..n {
        let at = w * k;
        let from = w * room;
        put_room(&lists[at..at + k], &mut rooms[from..from + room], zero);
    }
}

/// The distance that is stored for a job of two nodes: 0.0 where they are equal.
#[tactic(auto, using(std::proofs::lemmas::Bool::Decides::nat_tests))]
fn job_distance(counters: Counters<'_>, u: NodeId, v: NodeId) -> f32
    requires { (u.0 < counters.n) × (v.0 < counters.n) }
    ensures { result ≡ cond (eqb u.0 v.0) zero32 (between counters.entry u.0 v.0) }
{
    if u.0 == v.0 {
        0.0
    } else {
        counters.between(u, v)
    }
}

/// Writes the number of jobs, each job with no step done, and the stored distances, with zeros behind them.
fn write_jobs(counters: Counters<'_>, jobs: &[u32], words: &mut [u32], floats: &mut [f32])
    requires lanes_len { JobsIn counters.n jobs.now }
    requires words_len { (length words.old ≡ 1024) × (length floats.old ≡ 64) }
    ensures { JobsWritten (between counters.entry) jobs.now (job_count jobs.now) words.new floats.new }
{
    words.fill(0);
    floats.fill(0.0);
    let count = jobs.len() / 2;
    words[0] = count as u32;
    for i in 0..count {
        let u = jobs[2 * i];
        let v = jobs[2 * i + 1];
        let at = 1 + 15 * i;
        words[at] = u;
        words[at + 1] = v;
        floats[i] = job_distance(counters, NodeId(u), NodeId(v));
    }
}

/// Writes the nodes of the lists to their rooms, and behind them the length of each list.
fn write_lists(n: usize, k: usize, nodes: &[u32], words: &mut [u32])
    requires { (n ≤ 1024) × (k ≤ 64) × (length nodes.now ≡ n * k) × (n * (k + 64) + n ≤ length words.old) }
    ensures { ListsPut n k nodes.now words.old words.new }
{
    let lens = n * (k + 64);
    let base = lens + n;
    put_rooms(n, k, nodes, &mut words[..lens], 0);
    words[lens..base].fill(k as u32);
}

/// Writes the distances of the lists to their rooms.
fn write_dists(n: usize, k: usize, distances: &[f32], floats: &mut [f32])
    requires { (n ≤ 1024) × (k ≤ 64) × (length distances.now ≡ n * k) × (n * (k + 64) ≤ length floats.old) }
    ensures { DistsPut n k distances.now floats.old floats.new }
{
    let lens = n * (k + 64);
    put_rooms(n, k, distances, &mut floats[..lens], 0.0);
}

/// Writes the state of a relay whose jobs have no step done: the lists in their rooms, their lengths, and the jobs.
pub fn write_state(
    counters: Counters<'_>,
    k: usize,
    nodes: &[u32],
    distances: &[f32],
    jobs: &[u32],
    words: &mut [u32],
    floats: &mut [f32],
)
    requires lanes_len { JobsIn counters.n jobs.now × Sized counters.n k words.old floats.old }
    requires nodes_len { (length nodes.now ≡ counters.n * k) × (length distances.now ≡ counters.n * k) }
    ensures { StateWritten k (opened (between counters.entry) (lists_in counters.entry.n k nodes.now distances.now) jobs.now) words.new floats.new }
{
    let lens = counters.n * (k + 64);
    let base = lens + counters.n;
    write_lists(counters.n, k, nodes, words);
    write_dists(counters.n, k, distances, floats);
    write_jobs(counters, jobs, &mut words[base..], &mut floats[lens..]);
}
