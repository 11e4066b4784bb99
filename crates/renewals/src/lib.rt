// What an iteration does when all pairs have met: new and old lists, their pairs unvisited, reversed lists.
#![tactic(auto)]

ghost use Rattle.std.specs.Prelude.{◌*◌, ◌≤◌, length};
ghost use Rattle.renews.specs.Renews.{Lists};
ghost use Rattle.renewals.specs.Renewals.{Held, ListsRenewed, StateRenewed};

use renews::Drawn;

// Writes the new and the old list of every context, and unvisits the pairs of kept new members; the lists are gathered in scratch, because all
// pairs are read before any is cleared.
fn renew_lists(
    n: usize,
    k: usize,
    s: usize,
    draws: &[u32],
    words: &mut [u32],
    scratch: &mut [u32],
) -> Drawn
    requires { Lists n k words.old × Held n k words.old × (2 * n * k ≤ length draws.now) × (512 * n ≤ length scratch.old) }
    ensures { ListsRenewed draws.now n k s words.old words.new scratch.old scratch.new result.total result.at }
{
    let lists = n * k;
    let marks = lists + 260 * n;
    let mut found = [0u32; 64];
    let drawn = renews::renew_all(words, n, k, s, draws, &mut found, scratch);
    unvisits::unvisit_all(words, marks, n, scratch);
    buffers::copy_all(&scratch[..260 * n], &mut words[lists..marks]);
    drawn
}

/// Renews every context (hora's `iterate`, behind its meetings): its new and old list, and the two reversed lists that all share, old before
/// new; returns the total of new.
pub fn renew_state(
    n: usize,
    k: usize,
    s: usize,
    draws: &[u32],
    words: &mut [u32],
    scratch: &mut [u32],
) -> usize
    requires { Lists n k words.old × Held n k words.old × (s ≤ 64) × (2 * n * k ≤ length draws.now) × (512 * n ≤ length scratch.old) }
    ensures { StateRenewed draws.now n k s words.old words.new scratch.old scratch.new result }
{
    let lists = n * k;
    let marks = lists + 260 * n;
    let drawn = renew_lists(n, k, s, draws, words, scratch);
    let next = backs::reverse(
        &mut words[lists..marks],
        n,
        s,
        65,
        195,
        draws,
        drawn.at,
        scratch,
    );
    backs::reverse(&mut words[lists..marks], n, s, 0, 130, draws, next, scratch);
    drawn.total
}
