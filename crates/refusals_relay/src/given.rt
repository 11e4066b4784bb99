// The cases of a list: the numbers of a call, and what is done to the state that it is lent.
ghost use Rattle.std.specs.Prelude.{◌≡◌};
ghost use Rattle.refusals_relay.specs.Given.{lent_of, state_of, case_at};

use cases::{Cursor, Read};

/// The numbers of a call, and how long each slice is that it lends.
#[derive(Clone, Copy)]
pub struct Lent {
    pub n: usize,
    pub k: usize,
    pub job: usize,
    pub words: usize,
    pub floats: usize,
    pub nodes: usize,
    pub dists: usize,
    pub reports: usize,
}

/// How many steps job 0 and each other job has done, and then two words and a float that are put at places of the state; a place behind
/// the end changes nothing.
#[derive(Clone, Copy)]
pub struct State {
    pub first: usize,
    pub rest: usize,
    pub at: usize,
    pub word: u32,
    pub also: usize,
    pub other: u32,
    pub float_at: usize,
    pub float: f32,
}

/// A case of the list.
#[derive(Clone, Copy)]
pub struct Case {
    pub lent: Lent,
    pub state: State,
}

#[tactic(auto, unfolding(crate::specs::Given::lent_of))]
fn lent_of(xs: [u32; 16]) -> Lent
    ensures { result ≡ lent_of xs }
{
    Lent {
        n: refusals::wide(xs[0]),
        k: refusals::wide(xs[1]),
        job: refusals::wide(xs[2]),
        words: refusals::wide(xs[3]),
        floats: refusals::wide(xs[4]),
        nodes: refusals::wide(xs[5]),
        dists: refusals::wide(xs[6]),
        reports: refusals::wide(xs[7]),
    }
}

#[tactic(auto, unfolding(crate::specs::Given::state_of))]
fn state_of(xs: [u32; 16]) -> State
    ensures { result ≡ state_of xs }
{
    State {
        first: refusals::wide(xs[8]),
        rest: refusals::wide(xs[9]),
        at: refusals::wide(xs[10]),
        word: xs[11],
        also: refusals::wide(xs[12]),
        other: xs[13],
        float_at: refusals::wide(xs[14]),
        float: refusals::float_of(xs[15]),
    }
}

/// Reads the numbers of a case: n, k, the job to move, the lengths of the state's words and floats, of the list nodes and distances and of
/// the reports; then the steps of job 0 and of each other job, two places with their words, and a place with its float's bits.
#[tactic(auto, unfolding(crate::specs::Given::case_at))]
pub fn read_case(text: &[u8], c: Cursor) -> Read<Case>
    ensures { result ≡ case_at text.now c }
{
    let mut xs: [u32; 16] = [0; 16];
    let cursor = cases::read_words(text, c, &mut xs);
    let value = Case {
        lent: lent_of(xs),
        state: state_of(xs),
    };
    Read { value, cursor }
}
