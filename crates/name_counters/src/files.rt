// Which files are read: those that the arguments name. Argument 0, the program's own name, stands for standard input.
ghost use Rattle.std.specs.Prelude.{◌≡◌, nat_le};
ghost use Rattle.name_counters.specs.Files.{first_of, is_dash};

/// Whether a file of which so many bytes were read is too long: there is room for one byte more than a game may have.
pub fn too_long(n: usize) -> bool
    ensures { result ≡ nat_le 65536 n }
{
    n >= 65536
}

/// The first argument that is read, of so many: 0 if there is no other.
#[tactic(auto, unfolding(crate::specs::Files::first_of))]
pub fn first(count: usize) -> usize
    ensures { result ≡ first_of count }
{
    if count < 2 { 0 } else { 1 }
}

/// Whether an argument is the `-` of standard input.
#[tactic(auto, unfolding(crate::specs::Files::is_dash))]
pub fn is_dash(name: &[u8]) -> bool
    ensures { result ≡ is_dash name.now }
{
    matches!(name, [b'-'])
}
