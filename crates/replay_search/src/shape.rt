// The numbers of a search in a list, each with the most that it may be.
ghost use Rattle.std.specs.Prelude.{◌≡◌, ◌≤◌};
ghost use Rattle.cases.specs.Text.{size_at};
ghost use Rattle.replay_search.specs.Shape.{shape_at};

use cases::{Cursor, Read};

/// No search finds more counters.
pub const MOST_FOUND: usize = 64;

/// The numbers of a case, how many floats its lanes and query are, and the place of its roots in the list.
#[derive(Clone, Copy)]
pub struct Shape {
    pub dimension: usize,
    pub n: usize,
    pub points: usize,
    pub row: usize,
    pub k: usize,
    pub roots: usize,
    pub cursor: Cursor,
}

/// Reads the dimension, n, the row's width, k, and how many roots there are.
#[tactic(auto, unfolding(crate::specs::Shape::shape_at))]
pub fn read_shape(text: &[u8], c: Cursor) -> Shape
    ensures { result ≡ shape_at text.now c }
{
    let d = cases::read_size(text, c, 64);
    let n = cases::read_size(text, d.cursor, 256);
    let row = cases::read_size(text, n.cursor, 64);
    let k = cases::read_size(text, row.cursor, 64);
    let roots = cases::read_size(text, k.cursor, 64);
    Shape {
        dimension: d.value,
        n: n.value,
        points: cases::area(n.value + 1, d.value),
        row: row.value,
        k: k.value,
        roots: roots.value,
        cursor: roots.cursor,
    }
}

/// Reads how many counters were found.
pub fn read_m(text: &[u8], c: Cursor) -> Read<usize>
    ensures value { result ≡ size_at 64 text.now c }
    ensures value_bound { result.value ≤ 64 }
{
    cases::read_size(text, c, MOST_FOUND)
}
