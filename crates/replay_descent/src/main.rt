// Replays the oracle's descents on lent places full of junk, and compares what every call answers and leaves with what the Rust did.
#![tactic(auto)]

use cases::Cursor;
use kinds::Kind;
use rules::{IterateCounts, Refusal};
use shape::Shape;
use std::io;
use tallies::{JUNK, Outcome};

mod left;
mod shape;

// How an iteration came out, and the place behind its draws.
#[derive(Clone, Copy)]
struct Turned {
    outcome: Outcome,
    draws: Cursor,
}

// Places as long as the state's, for the list's.
fn beside(text: &[u8], o: Outcome, s: Shape, state_u: &[u32], state_f: &[f32]) -> Outcome {
    let mut words: [u32; 12648] = [0; 12648];
    let mut floats: [f32; 192] = [0.0; 192];
    let words_long = state_u.len().min(words.len());
    let floats_long = state_f.len().min(floats.len());
    left::beside_read(
        text,
        o,
        s,
        state_u,
        state_f,
        &mut words[..words_long],
        &mut floats[..floats_long],
    )
}

// What an iteration answered and left, beside the list's from the cursor of `o` on.
fn told(
    text: &[u8],
    o: Outcome,
    s: Shape,
    answer: Result<IterateCounts, Refusal>,
    state_u: &[u32],
    state_f: &[f32],
) -> Outcome {
    match answer {
        Ok(IterateCounts { cost, new }) => {
            beside(text, left::counts(text, o, cost, new), s, state_u, state_f)
        }
        Err(_) => left::refused(text, o, cases::pass(text, o.cursor, 2), s),
    }
}

// The call of `iterate`.
fn iterated(
    text: &[u8],
    o: Outcome,
    s: Shape,
    lanes: &[f32],
    draws: &[u32],
    state_u: &mut [u32],
    state_f: &mut [f32],
) -> Outcome {
    let mut words: [u32; 28672] = [JUNK; 28672];
    let mut floats: [f32; 28672] = [1.5; 28672];
    let answer = iterate::iterate(
        s.dimension,
        s.n,
        lanes,
        s.k,
        s.s,
        draws,
        state_u,
        state_f,
        &mut words,
        &mut floats,
    );
    let p = told(text, o, s, answer, state_u, state_f);
    tallies::with_scratch(p, &words, &floats)
}

// One iteration of a descent, with the draws at `c`.
fn turn(
    text: &[u8],
    c: Cursor,
    o: Outcome,
    s: Shape,
    lanes: &[f32],
    state_u: &mut [u32],
    state_f: &mut [f32],
) -> Turned {
    let mut draws: [u32; 512] = [0; 512];
    let drawn = refusals::read_run(text, c, &mut draws);
    let long = drawn.value.min(draws.len());
    Turned {
        outcome: iterated(text, o, s, lanes, &draws[..long], state_u, state_f),
        draws: drawn.cursor,
    }
}

// The iterations of a descent, with the draws from `c` on.
fn turns(
    text: &[u8],
    c: Cursor,
    count: usize,
    o: Outcome,
    s: Shape,
    lanes: &[f32],
    state_u: &mut [u32],
    state_f: &mut [f32],
) -> Outcome {
    let mut t = Turned {
        outcome: o,
        draws: c,
    };
    for _ in 0..count {
        t = turn(text, t.draws, t.outcome, s, lanes, state_u, state_f);
    }
    t.outcome
}

// The call of `begin`. The cursor of `o` is the place of what the Rust left.
fn begun(
    text: &[u8],
    o: Outcome,
    s: Shape,
    lanes: &[f32],
    draws: &[u32],
    state_u: &mut [u32],
    state_f: &mut [f32],
) -> Outcome {
    let mut words: [u32; 28672] = [JUNK; 28672];
    let mut floats: [f32; 28672] = [1.5; 28672];
    let answer = descent::begin(
        s.dimension,
        s.n,
        lanes,
        s.k,
        s.s,
        draws,
        state_u,
        state_f,
        &mut words,
        &mut floats,
    );
    match answer {
        Ok(()) => {
            let p = beside(text, o, s, state_u, state_f);
            tallies::with_scratch(p, &words, &floats)
        }
        Err(_) => left::refused(text, o, o.cursor, s),
    }
}

// A descent: `c` is the place of the draws. The iterations' draws stand before all answers, so they are read again in their turn.
fn descended(
    text: &[u8],
    c: Cursor,
    s: Shape,
    lanes: &[f32],
    state_u: &mut [u32],
    state_f: &mut [f32],
) -> Outcome {
    let mut draws: [u32; 512] = [0; 512];
    let drawn = refusals::read_run(text, c, &mut draws);
    let long = drawn.value.min(draws.len());
    let count = shape::read_iterations(text, drawn.cursor);
    let behind = kinds::pass_runs(text, count.cursor, count.value);
    let o = begun(
        text,
        tallies::fresh(behind),
        s,
        lanes,
        &draws[..long],
        state_u,
        state_f,
    );
    turns(
        text,
        count.cursor,
        count.value,
        o,
        s,
        lanes,
        state_u,
        state_f,
    )
}

// The state that a single iteration starts from.
fn read_given(
    text: &[u8],
    c: Cursor,
    s: Shape,
    state_u: &mut [u32],
    state_f: &mut [f32],
) -> Cursor {
    state_u.fill(0);
    states::read_state(text, c, s.n, s.k, state_u, state_f)
}

// A single iteration: `c` is the place of its state.
fn single(
    text: &[u8],
    c: Cursor,
    s: Shape,
    lanes: &[f32],
    state_u: &mut [u32],
    state_f: &mut [f32],
) -> Outcome {
    let draws = read_given(text, c, s, state_u, state_f);
    let o = tallies::fresh(kinds::pass_runs(text, draws, 1));
    turn(text, draws, o, s, lanes, state_u, state_f).outcome
}

// The case's lanes, read into a slice of their length.
fn given(
    text: &[u8],
    kind: Kind,
    s: Shape,
    lanes: &mut [f32],
    state_u: &mut [u32],
    state_f: &mut [f32],
) -> Outcome {
    let c = cases::read_floats(text, s.cursor, lanes);
    if kind == Kind::Descent {
        descended(text, c, s, lanes, state_u, state_f)
    } else {
        single(text, c, s, lanes, state_u, state_f)
    }
}

// The parts of our places that the case asks for; what is too long for them is cut, and so refused.
fn lent(
    text: &[u8],
    kind: Kind,
    s: Shape,
    lanes: &mut [f32],
    state_u: &mut [u32],
    state_f: &mut [f32],
) -> Outcome {
    let lanes_long = cases::area(s.n, s.dimension).min(lanes.len());
    let words_long = shape::words_long(s.n, s.k).min(state_u.len());
    let floats_long = cases::area(s.n, s.k).min(state_f.len());
    given(
        text,
        kind,
        s,
        &mut lanes[..lanes_long],
        &mut state_u[..words_long],
        &mut state_f[..floats_long],
    )
}

// A descent, or an iteration alone.
fn one_descent(text: &[u8], kind: Kind, c: Cursor) -> Outcome {
    let s = shape::read_shape(text, c);
    let mut lanes: [f32; 256] = [0.0; 256];
    let mut state_u: [u32; 12648] = [JUNK; 12648];
    let mut state_f: [f32; 192] = [1.5; 192];
    lent(text, kind, s, &mut lanes, &mut state_u, &mut state_f)
}

fn one_case(text: &[u8], kind: Kind, c: Cursor) -> Option<Outcome> {
    matches!(kind, Kind::Descent | Kind::Iteration).then(|| one_descent(text, kind, c))
}

fn main(rt: HostRuntime) -> io::Result<()> {
    let mut room = cases::room();
    let n = tallies::read_list(&rt, None, &mut room)?;
    tallies::replay(&rt, b"descents compared: ", &room[..n], one_case)?;
    for i in 1..inputs::arg_count(&rt) {
        let n = tallies::read_list(&rt, Some(i), &mut room)?;
        tallies::replay(
            &rt,
            b"descents of a list that is wrong on purpose: ",
            &room[..n],
            one_case,
        )?;
    }
    Ok(())
}
