// What a begin writes: unfilled lists, drawn contexts, no pair visited.
#![tactic(auto)]

ghost use Rattle.std.specs.Prelude.{◌≡◌, [], ◌∷◌, ℕ, ◌+◌, ◌*◌, ◌≤◌, ◌<◌, length};
ghost use Rattle.rules.specs.Loops.{each};
ghost use Rattle.rules.specs.Calls.{descent_words};
ghost use Rattle.rules.specs.Descent.{draws_from, begin_context};
ghost use Rattle.rules.specs.DescentPlaces.{member_words, context_words};
ghost use Rattle.begins.specs.Begins.{Begun};

// Writes a list of `s` draws modulo `n`, from `at` on, to 65 words.
fn draw_members(words: &mut [u32], draws: &[u32], n: usize, s: usize, at: usize)
    requires { (length words.old ≡ 65) × (s ≤ 64) × (1 ≤ n) × (n ≤ 1024) × (at + s ≤ length draws.now) }
    ensures { words.new ≡ member_words (draws_from draws.now n at s) }
{
    words.fill(0);
    words[0] = s as u32;
    for j in 0..s {
        words[j + 1] = shuffles::drawn(draws, n, at + j) as u32;
    }
}

// Writes the context of node `i` to 260 words: `s` new, no old, `s` reversed-new, no reversed-old.
fn begin_context(words: &mut [u32], draws: &[u32], n: usize, s: usize, i: usize)
    requires { (length words.old ≡ 260) × (s ≤ 64) × (1 ≤ n) × (n ≤ 1024) × (i < n) × (2 * n * s ≤ length draws.now) }
    ensures { words.new ≡ context_words (begin_context draws.now n s i ∷ []) }
{
    let at = 2 * s * i;
    draw_members(&mut words[0..65], draws, n, s, at);
    words[65..130].fill(0);
    draw_members(&mut words[130..195], draws, n, s, at + s);
    words[195..260].fill(0);
}

// Writes the contexts of all nodes, rising.
fn begin_contexts(words: &mut [u32], draws: &[u32], n: usize, s: usize)
    requires { (length words.old ≡ 260 * n) × (s ≤ 64) × (1 ≤ n) × (n ≤ 1024) × (2 * n * s ≤ length draws.now) }
    ensures { words.new ≡ context_words (each (λ (i : ℕ). begin_context draws.now n s i ∷ []) n) }
{
    for i in 0..n {
        let from = 260 * i;
        let to = from + 260;
        begin_context(&mut words[from..to], draws, n, s, i);
    }
}

/// Writes a descent's state as it begins (hora's `init`): unfilled lists of `k`, for each node `s` new and then `s` reversed-new draws
/// modulo `n`, no pair visited.
pub fn begin_state(
    n: usize,
    k: usize,
    s: usize,
    draws: &[u32],
    words: &mut [u32],
    floats: &mut [f32],
)
    requires le_n { (1 ≤ n) × (n ≤ 1024) × (k ≤ 64) × (s ≤ 64) × (2 * n * s ≤ length draws.now) }
    requires words_len { (length words.old ≡ descent_words n k) × (length floats.old ≡ n * k) }
    ensures { Begun n k s draws.now words.new floats.new }
{
    let lists = n * k;
    let marks = lists + 260 * n;
    rows::fill_row(&mut words[0..lists], floats, lists, 0, n);
    begin_contexts(&mut words[lists..marks], draws, n, s);
    words[marks..].fill(0);
}
