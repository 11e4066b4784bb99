// The cases of a list: the numbers of a call.
ghost use Rattle.std.specs.Prelude.{◌≡◌};
ghost use Rattle.refusals_search.specs.Given.{call_of, case_at};

use cases::{Cursor, Read};

/// The numbers of a call, and how long the result slices and scratch are that it lends.
#[derive(Clone, Copy)]
pub struct Call {
    pub dimension: usize,
    pub n: usize,
    pub index_size: usize,
    pub k: usize,
    pub nodes: usize,
    pub bits: usize,
    pub words: usize,
    pub floats: usize,
}

#[tactic(auto, unfolding(crate::specs::Given::call_of))]
fn call_of(xs: [u32; 8]) -> Call
    ensures { result ≡ call_of xs }
{
    Call {
        dimension: refusals::wide(xs[0]),
        n: refusals::wide(xs[1]),
        index_size: refusals::wide(xs[2]),
        k: refusals::wide(xs[3]),
        nodes: refusals::wide(xs[4]),
        bits: refusals::wide(xs[5]),
        words: refusals::wide(xs[6]),
        floats: refusals::wide(xs[7]),
    }
}

/// Reads the numbers of a case: dimension, n, index_size, k, and the lengths of the result nodes and bits, and of scratch's words and floats.
#[tactic(auto, unfolding(crate::specs::Given::case_at))]
pub fn read_case(text: &[u8], c: Cursor) -> Read<Call>
    ensures { result ≡ case_at text.now c }
{
    let mut xs: [u32; 8] = [0; 8];
    let cursor = cases::read_words(text, c, &mut xs);
    Read {
        value: call_of(xs),
        cursor,
    }
}
