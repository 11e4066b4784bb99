// A context list written to its 65 words: the length, the members, zeros.
#![tactic(auto)]

ghost use Rattle.std.specs.Prelude.{◌≡◌, ◌≤◌, length};
ghost use Rattle.rules.specs.DescentPlaces.{member_words};

/// Writes a context list of at most 64 members to its 65 words.
pub fn put_members(src: &[u32], dst: &mut [u32])
    requires { (length src.now ≤ 64) × (length dst.old ≡ 65) }
    ensures { dst.new ≡ member_words src.now }
{
    let len = src.len();
    dst.fill(0);
    dst[0] = len as u32;
    buffers::copy_all(src, &mut dst[1..=len]);
}
