// The numbers of a build in a list, each with the most that it may be.
ghost use Rattle.std.specs.Prelude.{◌≡◌};
ghost use Rattle.replay_build.specs.Shape.{shape_at, taught_at};

use cases::Cursor;
use params::SsgParams;

/// The numbers of a case, and the place of its lanes in the list.
#[derive(Clone, Copy)]
pub struct Shape {
    pub dimension: usize,
    pub n: usize,
    pub params: SsgParams,
    pub cursor: Cursor,
}

#[tactic(auto, unfolding(crate::specs::Shape::taught_at))]
fn read_params(text: &[u8], dimension: usize, n: usize, c: Cursor) -> Shape
    ensures { result ≡ taught_at text.now dimension n c }
{
    let init_k = cases::read_size(text, c, 64);
    let row = cases::read_size(text, init_k.cursor, 64);
    let hops = cases::read_size(text, row.cursor, 256);
    let threshold = cases::read_word(text, hops.cursor);
    let params = SsgParams {
        threshold: cases::float(threshold.value),
        init_k: init_k.value,
        index_size: row.value,
        neighbor_neighbor_size: hops.value,
    };
    Shape {
        dimension,
        n,
        params,
        cursor: threshold.cursor,
    }
}

/// Reads the dimension and n, then the parameters.
#[tactic(auto, unfolding(crate::specs::Shape::shape_at))]
pub fn read_shape(text: &[u8], c: Cursor) -> Shape
    ensures { result ≡ shape_at text.now c }
{
    let d = cases::read_size(text, c, 64);
    let n = cases::read_size(text, d.cursor, 256);
    read_params(text, d.value, n.value, n.cursor)
}
