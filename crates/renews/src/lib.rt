// An iteration's new and old lists: the filled entries of a list by their visited pairs, shuffled and cut, written to contexts.
#![tactic(auto)]

ghost use Rattle.std.specs.Prelude.{◌≡◌, Bool, List, ◌+◌, ◌*◌, ◌/◌, ◌≤◌, ◌<◌, length};
ghost use Rattle.visits.specs.Marks.{Holds};
ghost use Rattle.renews.specs.Renews.{Lists, taken, Gathered, NewPut, OldPut, Renews};

use rules::NodeId;

/// Draws used so far, and the total of new.
#[derive(Clone, Copy)]
pub struct Drawn {
    pub total: usize,
    pub at: usize,
}

// Whether an entry of node `i`'s list is filled, and its pair visited or not as asked.
fn is_taken(words: &[u32], base: usize, n: usize, i: NodeId, v: NodeId, visited: bool) -> bool
    requires { (n ≤ 1024) × (i.0 < n) × (length words.now ≡ base + (n * n + 31) / 32) }
    ensures { (flags : List Bool) → Holds base n flags words.now → v.0 ≤ n → result ≡ taken visited n i.0 flags v.0 }
{
    (v.0 as usize) < n && visits::is_visited(words, base, n, i, v) == visited
}

// Writes the filled entries of node `i`'s list whose pairs are visited, or those whose are not, to the front of `out`, in order.
fn gather(words: &[u32], n: usize, k: usize, i: NodeId, visited: bool, out: &mut [u32]) -> usize
    requires { Lists n k words.now × (i.0 < n) × (length out.old ≡ 64) }
    ensures { Gathered n k i.0 visited words.now out.new result }
{
    let base = n * k + 260 * n;
    let from = i.0 as usize * k;
    let mut len = 0;
    for &v in &words[from..from + k] {
        if is_taken(words, base, n, i, NodeId(v), visited) {
            out[len] = v;
            len += 1;
        }
    }
    len
}

// Writes node `i`'s new list, shuffled and cut if longer than `s`, to the 65 words of `dst`, and counts its entries and draws.
fn renew_new(
    words: &[u32],
    n: usize,
    k: usize,
    s: usize,
    draws: &[u32],
    i: NodeId,
    found: &mut [u32],
    dst: &mut [u32],
    so_far: Drawn,
) -> Drawn
    requires { Lists n k words.now × (i.0 < n) × (length found.old ≡ 64) × (length dst.old ≡ 65) × (so_far.at + k ≤ length draws.now) × (so_far.total ≤ 2147483648) × (so_far.at ≤ 2147483648) }
    ensures { NewPut draws.now n k s i.0 words.now so_far.total so_far.at found.new dst.new result.total result.at }
{
    let len = gather(words, n, k, i, true, found);
    let at = so_far.at;
    let from = shuffles::keep_new(&mut found[..len], s, draws, at);
    let next = shuffles::drawn_after(&found[..len], s, at);
    members::put_members(&found[from..len], dst);
    Drawn {
        total: so_far.total + len,
        at: next,
    }
}

// Writes node `i`'s old list to the 65 words of `dst`.
fn renew_old(words: &[u32], n: usize, k: usize, i: NodeId, found: &mut [u32], dst: &mut [u32])
    requires { Lists n k words.now × (i.0 < n) × (length found.old ≡ 64) × (length dst.old ≡ 65) }
    ensures { OldPut n k i.0 words.now found.new dst.new }
{
    let len = gather(words, n, k, i, false, found);
    members::put_members(&found[..len], dst);
}

/// Writes the new and the old list of every node, rising, to contexts of 260 words each; all pairs are read before any is cleared
/// (hora's `iterate`, its first half). What stands behind the two lists of a context is left as it was.
pub fn renew_all(
    words: &[u32],
    n: usize,
    k: usize,
    s: usize,
    draws: &[u32],
    found: &mut [u32],
    contexts: &mut [u32],
) -> Drawn
    requires { Lists n k words.now × (length found.old ≡ 64) × (260 * n ≤ length contexts.old) × (n * k ≤ length draws.now) }
    ensures { Renews draws.now n k s words.now contexts.old contexts.new result.total result.at n }
{
    let mut so_far = Drawn { total: 0, at: 0 };
    for i in 0..n {
        let new = 260 * i;
        let old = new + 65;
        let end = old + 65;
        let node = NodeId(i as u32);
        so_far = renew_new(
            words,
            n,
            k,
            s,
            draws,
            node,
            found,
            &mut contexts[new..old],
            so_far,
        );
        renew_old(words, n, k, node, found, &mut contexts[old..end]);
    }
    so_far
}
