// Whether unused places of lent slices are zero: words, and floats by their bits.
#![tactic(auto)]

ghost use Rattle.std.specs.Prelude.{◌≡◌, map, eqb, drop};
ghost use Rattle.std.specs.Float.{binary32};
ghost use Rattle.std.specs.Float.Ieee.{to_bits};
ghost use Rattle.zeros.specs.Zeros.{zeros};

/// Whether all bits of a float are zero: -0.0 and a NaN are not.
#[tactic(auto, using(crate::proofs::Laws::bits_nan))]
pub fn zero_bits(x: f32) -> bool
    ensures { result ≡ eqb (to_bits binary32 x) 0 }
{
    !x.is_nan() && x.to_bits() == 0
}

/// Whether every word from `from` on is zero.
pub fn words_zero(words: &[u32], from: usize) -> bool
    ensures { result ≡ zeros (drop from words.now) }
{
    words[from.min(words.len())..].iter().all(|&w| w == 0)
}

/// Whether all bits of every float from `from` on are zero.
pub fn floats_zero(floats: &[f32], from: usize) -> bool
    ensures { result ≡ zeros (map (to_bits binary32) (drop from floats.now)) }
{
    floats[from.min(floats.len())..]
        .iter()
        .all(|&x| zero_bits(x))
}
