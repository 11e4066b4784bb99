// The numbers of a relay in a list, each with the most that it may be.
ghost use Rattle.std.specs.Prelude.{◌≡◌, ◌≤◌};
ghost use Rattle.cases.specs.Text.{size_at};
ghost use Rattle.replay_relay.specs.Shape.{shape_at};

use cases::{Cursor, Read};

/// No relay of a list has more jobs.
pub const MOST_JOBS: usize = 64;

/// Eight moves of each job.
pub const MOST_MOVES: usize = 512;

/// No list has room for more entries: k + 64.
pub const MOST_ENTRIES: usize = 128;

/// The numbers of a case, and the place of its lanes in the list.
#[derive(Clone, Copy)]
pub struct Shape {
    pub dimension: usize,
    pub n: usize,
    pub k: usize,
    pub cursor: Cursor,
}

/// Reads the dimension, n and k.
#[tactic(auto, unfolding(crate::specs::Shape::shape_at))]
pub fn read_shape(text: &[u8], c: Cursor) -> Shape
    ensures { result ≡ shape_at text.now c }
{
    let d = cases::read_size(text, c, 64);
    let n = cases::read_size(text, d.cursor, 256);
    let k = cases::read_size(text, n.cursor, 64);
    Shape {
        dimension: d.value,
        n: n.value,
        k: k.value,
        cursor: k.cursor,
    }
}

/// Reads how many jobs there are.
pub fn read_jobs(text: &[u8], c: Cursor) -> Read<usize>
    ensures value { result ≡ size_at 64 text.now c }
    ensures value_bound { result.value ≤ 64 }
{
    cases::read_size(text, c, MOST_JOBS)
}

/// Reads how many moves there are: eight of each job at most.
pub fn read_moves(text: &[u8], c: Cursor) -> Read<usize>
    ensures value { result ≡ size_at 512 text.now c }
    ensures value_bound { result.value ≤ 512 }
{
    cases::read_size(text, c, MOST_MOVES)
}

/// Reads how many entries a move left in a list, whose room is k + 64.
pub fn read_entries(text: &[u8], c: Cursor) -> Read<usize>
    ensures value { result ≡ size_at 128 text.now c }
    ensures value_bound { result.value ≤ 128 }
{
    cases::read_size(text, c, MOST_ENTRIES)
}
