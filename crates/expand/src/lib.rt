// A node of a search's walk expanded, over areas of lent scratch: flags, queue, best set, and the entries found in its row.
#![tactic(auto)]

ghost use Rattle.std.specs.Prelude.{[], ◌∷◌, ◌+◌, ◌≤◌, ◌<◌, length};
ghost use Rattle.metrics.specs.Counters.{asked_apart};
ghost use Rattle.rules.specs.Rows.{live_nodes};
ghost use Rattle.expand.specs.Areas.{Room, BestSound};
ghost use Rattle.expand.specs.Steps.{WorkedOut, Visited, Joined, TakenIn};
ghost use Rattle.expand.specs.Queue.{Rows, QueueSound, Expanded};

use metrics::Asked;
use rules::{Neighbor, NodeId};

/// Works the distance of node `v` to the query out, and puts it in order among the `len` entries found unless it is beyond `far`.
pub fn work_out(
    asked: Asked<'_, '_>,
    words: &mut [u32],
    floats: &mut [f32],
    len: usize,
    far: f32,
    v: NodeId,
) -> Result<usize, NodeId>
    requires few { asked.counters.n ≤ 4096 }
    requires room { Room asked.counters.n words.old floats.old }
    requires v_lt_n { (v.0 < asked.counters.n) × (len < 64) }
    ensures { WorkedOut far (asked_apart asked.entry) asked.entry.counters.n v.0 len words.old floats.old words.new floats.new result }
{
    let n = asked.counters.n;
    let d = asked.distance(v);
    match d {
        Some(x) => {
            if far < x {
                return Ok(len);
            }
            let e = Neighbor {
                node: v,
                distance: x,
            };
            let from = n + n + 64;
            let to = from + 64;
            let more = lists::push(&mut words[from..to], &mut floats[from..to], len, e);
            Ok(more)
        }
        None => Err(v),
    }
}

/// Works node `v` out and marks it seen, unless it is seen.
fn visit(
    asked: Asked<'_, '_>,
    words: &mut [u32],
    floats: &mut [f32],
    len: usize,
    far: f32,
    v: NodeId,
) -> Result<usize, NodeId>
    requires few { asked.counters.n ≤ 4096 }
    requires room { Room asked.counters.n words.old floats.old }
    requires v_lt_n { (v.0 < asked.counters.n) × (len < 64) }
    ensures { Visited far (asked_apart asked.entry) asked.entry.counters.n (v.0 ∷ []) len 1 words.old floats.old words.new floats.new result }
{
    let at = v.0 as usize;
    if words[at] == 1 {
        return Ok(len);
    }
    words[at] = 1;
    work_out(asked, words, floats, len, far, v)
}

/// Visits the members of a row, up to its first value of n or more; those beyond `far` are seen and passed over.
fn visit_row(
    asked: Asked<'_, '_>,
    row: &[u32],
    words: &mut [u32],
    floats: &mut [f32],
    far: f32,
) -> Result<usize, NodeId>
    requires few { asked.counters.n ≤ 4096 }
    requires room { Room asked.counters.n words.old floats.old }
    requires row_len_bound { length row.now ≤ 64 }
    ensures { Visited far (asked_apart asked.entry) asked.entry.counters.n (live_nodes asked.entry.counters.n row.now) 0 64 words.old floats.old words.new floats.new result }
{
    let n = asked.counters.n;
    let mut len: usize = 0;
    for &v in row {
        if n <= v as usize {
            return Ok(len);
        }
        len = visit(asked, words, floats, len, far, NodeId(v))?;
    }
    Ok(len)
}

/// Replaces the last of the best set by `e`, in order, and puts `e` at the queue's end.
fn join(
    n: usize,
    words: &mut [u32],
    floats: &mut [f32],
    m: usize,
    tail: usize,
    e: Neighbor,
) -> usize
    requires room { Room n words.old floats.old }
    requires le_m { (1 ≤ m) × (m ≤ 64) × (tail < n) }
    ensures { Joined n m tail e words.old floats.old words.new floats.new result }
{
    let from = n + n;
    let to = from + 64;
    lists::push(&mut words[from..to], &mut floats[from..to], m - 1, e);
    let at = n + tail;
    let v = e.node;
    words[at] = v.0;
    tail + 1
}

/// Takes the entries found in order, until one is farther than the farthest best; returns the queue's new length.
fn take_these(
    n: usize,
    words: &mut [u32],
    floats: &mut [f32],
    m: usize,
    len: usize,
    tail: usize,
) -> usize
    requires room { Room n words.old floats.old }
    requires le_m { (1 ≤ m) × (m ≤ 64) × (len ≤ 64) × (tail + len ≤ n) }
    ensures { TakenIn n m len tail words.old floats.old words.new floats.new result }
{
    let mut end = tail;
    for i in 0..len {
        let at = n + n + 64 + i;
        let e = Neighbor {
            node: NodeId(words[at]),
            distance: floats[at],
        };
        let last = n + n + m - 1;
        if e.distance > floats[last] {
            return end;
        }
        end = join(n, words, floats, m, end, e);
    }
    end
}

/// Takes the next node from the queue, of which `takings` have been taken, and expands it; counts the queue's new length.
/// What is beyond the farthest best is beyond it later too, and would end the row: it is never sorted.
pub fn expand(
    asked: Asked<'_, '_>,
    graph: &[u32],
    index_size: usize,
    words: &mut [u32],
    floats: &mut [f32],
    m: usize,
    takings: usize,
    tail: usize,
) -> Result<usize, NodeId>
    requires few { asked.counters.n ≤ 4096 }
    requires rows { Rows asked.counters.n graph.now index_size }
    requires room { Room asked.counters.n words.old floats.old }
    requires queue_sound { QueueSound asked.counters.n words.old tail }
    requires best_sound { BestSound asked.counters.n words.old floats.old m }
    requires le_m { (1 ≤ m) × (m ≤ 64) × (takings < tail) }
    ensures { Expanded (asked_apart asked.entry) asked.entry.counters.n graph.now index_size m takings tail words.old floats.old words.new floats.new result }
{
    let n = asked.counters.n;
    let at = n + takings;
    let q = words[at] as usize;
    let from = q * index_size;
    let to = from + index_size;
    let last = n + n + m - 1;
    let far = floats[last];
    let len = visit_row(asked, &graph[from..to], words, floats, far)?;
    let end = take_these(n, words, floats, m, len, tail);
    Ok(end)
}
