// Shuffles of an iteration: a whole slice shuffled by draws, and what is kept of a list that is too long.
#![tactic(auto)]

ghost use Rattle.std.specs.Prelude.{◌≡◌, ◌+◌, ◌-◌, ◌≤◌, ◌<◌, length};
ghost use Rattle.rules.specs.Descent.{drawn, shuffle, drawn_after};
ghost use Rattle.shuffles.specs.Kept.{KeptNew, KeptBack};

/// The draw at `at`, modulo `n`.
pub fn drawn(draws: &[u32], n: usize, at: usize) -> usize
    requires { (1 ≤ n) × (at < length draws.now) }
    ensures { (result ≡ drawn draws.now n at) × (result < n) }
{
    draws[at] as usize % n
}

/// Shuffles the whole slice with the draws from `at` on (hora's `shuffle`): p from the last place down to 1, each swapped with a draw
/// modulo p + 1.
pub fn shuffle(xs: &mut [u32], draws: &[u32], at: usize)
    requires { at + (length xs.old - 1) ≤ length draws.now }
    ensures { xs.new ≡ shuffle draws.now at xs.old }
{
    let mut next = at;
    for p in (1..xs.len()).rev() {
        let q = drawn(draws, p + 1, next);
        xs.swap(p, q);
        next += 1;
    }
}

/// Shuffles a new list longer than `s`, and returns the place from which on it is kept: `s`, or 0 where all of it is kept.
#[tactic(auto, unfolding(rules::specs::Descent::kept_new))]
pub fn keep_new(xs: &mut [u32], s: usize, draws: &[u32], at: usize) -> usize
    requires { at + (length xs.old - 1) ≤ length draws.now }
    ensures { KeptNew draws.now s at xs.old xs.new result }
{
    if s < xs.len() {
        shuffle(xs, draws, at);
        return s;
    }
    0
}

/// Shuffles a reversed list longer than `s`, and returns how many of it are kept: `s`, or all of them.
#[tactic(auto, unfolding(rules::specs::Descent::kept_back))]
pub fn keep_back(xs: &mut [u32], s: usize, draws: &[u32], at: usize) -> usize
    requires { at + (length xs.old - 1) ≤ length draws.now }
    ensures { KeptBack draws.now s at xs.old xs.new result }
{
    let len = xs.len();
    if len <= s {
        return len;
    }
    shuffle(xs, draws, at);
    s
}

/// Where the next draw is, after a list that is shuffled if longer than `s`.
#[tactic(auto, unfolding(rules::specs::Descent::drawn_after))]
pub fn drawn_after(xs: &[u32], s: usize, at: usize) -> usize
    requires { at + length xs.now ≤ 4294967296 }
    ensures { result ≡ drawn_after s at xs.now }
{
    let len = xs.len();
    if s < len { at + (len - 1) } else { at }
}
