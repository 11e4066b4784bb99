// Lent buffers: zeroed, copied from the front, and used as flags.
#![tactic(auto)]

ghost use Rattle.std.specs.Prelude.{◌≡◌, not, map, ℕ, ◌≤◌, ◌<◌, T, length, get_or, replicate};
ghost use Rattle.std.specs.Float.{nan, binary32};
ghost use Rattle.std.specs.Float.Ieee.{is_nan, to_bits};
ghost use Rattle.rules.specs.Loops.{over};
ghost use Rattle.rules.specs.Distance.{zero32};
ghost use Rattle.rules.specs.Search.{mark, is_seen};

use rules::NodeId;

/// Fills the whole slice with zero.
pub fn zero_words(words: &mut [u32])
    ensures { words.new ≡ replicate (length words.old) 0 }
{
    words.fill(0);
}

/// Fills the whole slice with 0.0.
pub fn zero_floats(floats: &mut [f32])
    ensures { floats.new ≡ replicate (length floats.old) zero32 }
{
    floats.fill(0.0);
}

/// Writes `src` over the whole of `dst`. The library's `copy_from_slice` would need `memmove` of whoever links the archive.
pub fn copy_all<T: Copy>(src: &[T], dst: &mut [T])
    requires { length dst.old ≡ length src.now }
    ensures len { length dst.new ≡ length dst.old }
    ensures after { dst.new ≡ src.now }
{
    for i in 0..dst.len() {
        dst[i] = src[i];
    }
}

/// Writes the first `m` of `src` over the first `m` of `dst`.
#[tactic(auto, unfolding(rules::specs::Loops::over))]
pub fn copy_front<T: Copy>(m: usize, src: &[T], dst: &mut [T])
    requires { (m ≤ length src.now) × (m ≤ length dst.old) }
    ensures { dst.new ≡ over m src.now dst.old }
{
    copy_all(&src[..m], &mut dst[..m]);
}

/// Writes the first `m` of `src` over the first `m` of `dst`.
pub fn copy_words(m: usize, src: &[u32], dst: &mut [u32])
    requires { (m ≤ length src.now) × (m ≤ length dst.old) }
    ensures { dst.new ≡ over m src.now dst.old }
{
    copy_front(m, src, dst);
}

/// Writes the first `m` of `from` over the first `m` of `to`.
pub fn copy_floats(m: usize, from: &[f32], to: &mut [f32])
    requires { (m ≤ length from.now) × (m ≤ length to.old) }
    ensures { to.new ≡ over m from.now to.old }
{
    copy_front(m, from, to);
}

/// Writes the bits of the first `m` of `floats`, none of them a NaN, over the first `m` of `bits`.
pub fn copy_bits(m: usize, floats: &[f32], bits: &mut [u32])
    requires m_in_bounds { (m ≤ length floats.now) × (m ≤ length bits.old) }
    requires by_index { (i : ℕ) → i < m → T (not (is_nan (get_or floats.now i nan))) }
    ensures { bits.new ≡ over m (map (to_bits binary32) floats.now) bits.old }
{
    for j in 0..m {
        bits[j] = floats[j].to_bits();
    }
}

/// Marks node `v` as seen (hora's `FixedBitSet::insert`).
#[tactic(auto, unfolding(rules::specs::Search::mark))]
pub fn mark_seen(flags: &mut [u32], v: NodeId)
    requires { v.0 < length flags.old }
    ensures { flags.new ≡ mark v.0 flags.old }
{
    flags[v.0 as usize] = 1;
}

/// Whether node `v` is marked as seen (hora's `FixedBitSet::contains`).
#[tactic(auto, unfolding(rules::specs::Search::is_seen))]
pub fn is_seen(flags: &[u32], v: NodeId) -> bool
    requires { v.0 < length flags.now }
    ensures { result ≡ is_seen v.0 flags.now }
{
    flags[v.0 as usize] == 1
}
