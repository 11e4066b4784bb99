// The reversed lists of an iteration: each node's number once per member it has, and a list copied to every context.
#![tactic(auto)]

ghost use Rattle.std.specs.Prelude.{◌+◌, ◌-◌, ◌*◌, ◌≤◌, ◌<◌, length};
ghost use Rattle.backs.specs.Backs.{Lengths, backs, GatheredBack, PutBack, Reversed};

/// Writes each node's number, rising, once per member of the list at `at` of its context, to the front of `out`, and returns how many
/// there are: what every node's reversed list is made of (hora's `reversed_new_neighbors`, one `Arc` that all nodes share).
pub fn back_members(contexts: &[u32], n: usize, at: usize, out: &mut [u32]) -> usize
    requires { (n ≤ 1024) × (at < 260) × (260 * n ≤ length contexts.now) × Lengths n at contexts.now × (64 * n ≤ length out.old) }
    ensures { GatheredBack n at contexts.now out.old out.new result }
{
    let mut len: usize = 0;
    for i in 0..n {
        let count = contexts[260 * i + at] as usize;
        out[len..len + count].fill(i as u32);
        len += count;
    }
    len
}

/// Writes a list of at most 64 to the 65 words at `at` of every context.
pub fn put_back(src: &[u32], n: usize, at: usize, contexts: &mut [u32])
    requires { (n ≤ 1024) × (at + 65 ≤ 260) × (260 * n ≤ length contexts.old) × (length src.now ≤ 64) }
    ensures { PutBack n at src.now contexts.old contexts.new }
{
    for i in 0..n {
        let from = 260 * i + at;
        let to = from + 65;
        members::put_members(src, &mut contexts[from..to]);
    }
}

/// Makes the reversed list of the lists at `from` of every context in `scratch`, shuffles and cuts it if longer than `s`, writes it at
/// `to` of every context, and returns where the next draw is.
pub fn reverse(
    contexts: &mut [u32],
    n: usize,
    s: usize,
    from: usize,
    to: usize,
    draws: &[u32],
    at: usize,
    scratch: &mut [u32],
) -> usize
    requires n_bound { (n ≤ 1024) × (s ≤ 64) × (from < 260) × (to + 65 ≤ 260) × (260 * n ≤ length contexts.old) × Lengths n from contexts.old × (64 * n ≤ length scratch.old) }
    requires at_bound { (at ≤ 131072) × (at + (length (backs from contexts.old n) - 1) ≤ length draws.now) }
    ensures { Reversed n s from to draws.now at contexts.old scratch.old contexts.new scratch.new result }
{
    let len = back_members(contexts, n, from, scratch);
    let kept = shuffles::keep_back(&mut scratch[..len], s, draws, at);
    let next = shuffles::drawn_after(&scratch[..len], s, at);
    put_back(&scratch[..kept], n, to, contexts);
    next
}
