// The numbers of a descent in a list, each with the most that it may be.
ghost use Rattle.std.specs.Prelude.{◌≡◌};
ghost use Rattle.cases.specs.Text.{size_at};
ghost use Rattle.replay_descent.specs.Shape.{shape_at, words_long};

use cases::{Cursor, Read};

/// No descent of a list has more iterations.
pub const MOST_ITERATIONS: usize = 16;

/// The numbers of a case, and the place of its lanes in the list.
#[derive(Clone, Copy)]
pub struct Shape {
    pub dimension: usize,
    pub n: usize,
    pub k: usize,
    pub s: usize,
    pub cursor: Cursor,
}

/// Reads the dimension, n, k and s.
#[tactic(auto, unfolding(crate::specs::Shape::shape_at))]
pub fn read_shape(text: &[u8], c: Cursor) -> Shape
    ensures { result ≡ shape_at text.now c }
{
    let d = cases::read_size(text, c, 64);
    let n = cases::read_size(text, d.cursor, 48);
    let k = cases::read_size(text, n.cursor, 64);
    let s = cases::read_size(text, k.cursor, 64);
    Shape {
        dimension: d.value,
        n: n.value,
        k: k.value,
        s: s.value,
        cursor: s.cursor,
    }
}

/// Reads how many iterations a descent has.
pub fn read_iterations(text: &[u8], c: Cursor) -> Read<usize>
    ensures { result ≡ size_at 16 text.now c }
{
    cases::read_size(text, c, MOST_ITERATIONS)
}

/// How many words a state is.
#[tactic(auto, unfolding(crate::specs::Shape::words_long))]
pub fn words_long(n: usize, k: usize) -> usize
    ensures { result ≡ words_long n k }
{
    cases::area(n, k) + cases::area(260, n) + (cases::area(n, n) + 31) / 32
}
