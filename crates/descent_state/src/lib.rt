// Row 12 of an iteration: whether a descent's state is well formed, part by part.
#![tactic(auto)]

ghost use Rattle.std.specs.Prelude.{◌≡◌, not, ℕ, ◌+◌, ◌-◌, ◌*◌, ◌≤◌, ◌<◌, length, take, drop};
ghost use Rattle.rules.specs.Loops.{part};
ghost use Rattle.rules.specs.DescentPlaces.{bit_at, members_formed, descent_formed};
ghost use Rattle.zeros.specs.Zeros.{all_below};
ghost use Rattle.visits.specs.Marks.{marks};
ghost use Rattle.descent_state.specs.State.{Sized, member_test};

// Whether each of the members is below `n`.
fn members_below(members: &[u32], n: usize) -> bool
    ensures { result ≡ members_formed n members.now }
{
    members.iter().all(|&v| (v as usize) < n)
}

/// Whether 65 words are a well-formed list of a context: its length, at most 64, members below `n`, zeros behind them.
pub fn members_formed(words: &[u32], n: usize) -> bool
    requires { length words.now ≡ 65 }
    ensures { result ≡ member_test n words.now }
{
    let len = words[0] as usize;
    len <= 64 && zeros::words_zero(words, len + 1) && members_below(&words[1..=len], n)
}

// Whether the four lists of each of `n` contexts are well formed.
fn contexts_formed(words: &[u32], n: usize) -> bool
    requires { (n ≤ 1024) × (length words.now ≡ 4 * n * 65) }
    ensures { result ≡ all_below (λ (i : ℕ). member_test n (part 65 i words.now)) (4 * n) }
{
    let count = 4 * n;
    for i in 0..count {
        let from = i * 65;
        let to = from + 65;
        if !members_formed(&words[from..to], n) {
            return false;
        }
    }
    true
}

// Whether the bits behind those of the n times n pairs are zero.
fn spare_clear(words: &[u32], n: usize) -> bool
    requires { (n ≤ 1024) × (length words.now ≡ marks n) }
    ensures { result ≡ all_below (λ (j : ℕ). not (bit_at words.now (n * n + j))) (32 * marks n - n * n) }
{
    let used = n * n;
    let spare = 32 * words.len() - used;
    for j in 0..spare {
        if bits::bit_at(words, used + j) {
            return false;
        }
    }
    true
}

/// Whether a descent's state is well formed.
pub fn descent_formed(n: usize, k: usize, words: &[u32], floats: &[f32]) -> bool
    requires { Sized n k words.now floats.now }
    ensures { result ≡ descent_formed n k words.now floats.now }
{
    let from = n * k;
    let to = from + 260 * n;
    formed::lists_formed(words, floats, n, k)
        && contexts_formed(&words[from..to], n)
        && spare_clear(&words[to..], n)
}
