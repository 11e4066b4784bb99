// The cases of a list: the numbers of a call, and two entries of the lists that it lends.
ghost use Rattle.std.specs.Prelude.{◌≡◌};
ghost use Rattle.refusals_open.specs.Given.{call_of, entry_of, case_at};

use cases::{Cursor, Read};

/// The numbers of a call, and how long the lists, the state and scratch are that it lends.
#[derive(Clone, Copy)]
pub struct Call {
    pub dimension: usize,
    pub n: usize,
    pub k: usize,
    pub nodes: usize,
    pub dists: usize,
    pub words: usize,
    pub floats: usize,
    pub scratch_u: usize,
    pub scratch_f: usize,
}

/// An entry that is put into the lists before the call; a place behind their end changes nothing.
#[derive(Clone, Copy)]
pub struct Entry {
    pub at: usize,
    pub node: u32,
    pub dist: f32,
}

/// A case of the list: the call, and two entries of its lists.
#[derive(Clone, Copy)]
pub struct Case {
    pub call: Call,
    pub first: Entry,
    pub second: Entry,
}

#[tactic(auto, unfolding(crate::specs::Given::call_of))]
fn call_of(xs: [u32; 15]) -> Call
    ensures { result ≡ call_of xs }
{
    Call {
        dimension: refusals::wide(xs[0]),
        n: refusals::wide(xs[1]),
        k: refusals::wide(xs[2]),
        nodes: refusals::wide(xs[3]),
        dists: refusals::wide(xs[4]),
        words: refusals::wide(xs[5]),
        floats: refusals::wide(xs[6]),
        scratch_u: refusals::wide(xs[7]),
        scratch_f: refusals::wide(xs[8]),
    }
}

#[tactic(auto, unfolding(crate::specs::Given::entry_of))]
fn entry_of(at: u32, node: u32, bits: u32) -> Entry
    ensures { result ≡ entry_of at node bits }
{
    Entry {
        at: refusals::wide(at),
        node,
        dist: refusals::float_of(bits),
    }
}

/// Reads the numbers of a case: dimension, n, k, the lengths of the list nodes and distances, of the state's words and floats and of
/// scratch's, and two entries, of each its place, its node and the bits of its distance.
#[tactic(auto, unfolding(crate::specs::Given::case_of, crate::specs::Given::case_at))]
pub fn read_case(text: &[u8], c: Cursor) -> Read<Case>
    ensures { result ≡ case_at text.now c }
{
    let mut xs: [u32; 15] = [0; 15];
    let cursor = cases::read_words(text, c, &mut xs);
    let value = Case {
        call: call_of(xs),
        first: entry_of(xs[9], xs[10], xs[11]),
        second: entry_of(xs[12], xs[13], xs[14]),
    };
    Read { value, cursor }
}
