// A bit of a lent slice of words: read, set and cleared.
#![tactic(auto)]

ghost use Rattle.std.specs.Prelude.{◌≡◌, ◌/◌, ◌<◌, length};
ghost use Rattle.rules.specs.DescentPlaces.{bit_at};
ghost use Rattle.bits.specs.Bits.{set_bit, clear_bit};

/// Whether bit `i` is set: of word i / 32, bit i % 32 from the lowest.
#[tactic(auto, unfolding(rules::specs::DescentPlaces::bit_at))]
pub fn bit_at(words: &[u32], i: usize) -> bool
    requires { i / 32 < length words.now }
    ensures { result ≡ bit_at words.now i }
{
    (words[i / 32] >> (i % 32)) % 2 == 1
}

/// Sets bit `i`.
pub fn set_bit(words: &mut [u32], i: usize)
    requires { i / 32 < length words.old }
    ensures { words.new ≡ set_bit i words.old }
{
    words[i / 32] |= 1 << (i % 32);
}

/// Clears bit `i`.
pub fn clear_bit(words: &mut [u32], i: usize)
    requires { i / 32 < length words.old }
    ensures { words.new ≡ clear_bit i words.old }
{
    words[i / 32] &= !(1 << (i % 32));
}
