// The cases of a list: the parameters and the numbers of a call.
ghost use Rattle.std.specs.Prelude.{◌≡◌};
ghost use Rattle.refusals_build.specs.Given.{params_of, call_of, case_at};

use cases::{Cursor, Read};
use params::SsgParams;

/// The numbers of a call, and how long each slice is that it lends.
#[derive(Clone, Copy)]
pub struct Call {
    pub params: SsgParams,
    pub dimension: usize,
    pub n: usize,
    pub graph: usize,
    pub words: usize,
    pub floats: usize,
    pub lanes: usize,
}

#[tactic(auto, unfolding(crate::specs::Given::params_of))]
fn params_of(xs: [u32; 10]) -> SsgParams
    ensures { result ≡ params_of xs }
{
    SsgParams::default()
        .init_k(refusals::wide(xs[2]))
        .index_size(refusals::wide(xs[3]))
        .neighbor_neighbor_size(refusals::wide(xs[4]))
        .threshold(refusals::float_of(xs[5]))
}

#[tactic(auto, unfolding(crate::specs::Given::call_of))]
fn call_of(xs: [u32; 10]) -> Call
    ensures { result ≡ call_of xs }
{
    Call {
        params: params_of(xs),
        dimension: refusals::wide(xs[0]),
        n: refusals::wide(xs[1]),
        graph: refusals::wide(xs[6]),
        words: refusals::wide(xs[7]),
        floats: refusals::wide(xs[8]),
        lanes: refusals::wide(xs[9]),
    }
}

/// Reads the numbers of a case: dimension, n, the four parameters, and the lengths of the graph, of scratch's words and floats, and of the
/// lanes.
#[tactic(auto, unfolding(crate::specs::Given::case_at))]
pub fn read_case(text: &[u8], c: Cursor) -> Read<Call>
    ensures { result ≡ case_at text.now c }
{
    let mut xs: [u32; 10] = [0; 10];
    let cursor = cases::read_words(text, c, &mut xs);
    Read {
        value: call_of(xs),
        cursor,
    }
}
