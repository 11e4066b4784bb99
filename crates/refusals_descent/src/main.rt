// Every row of the table that `begin` and `iterate` can give, its edges, several rows at once, and states harmed in a place.
#![tactic(auto)]

use call::Call;
use cases::Cursor;
use std::io;

mod call;
mod given;

// The call on the parts of given places and of our own that are as long as it says; the draws are 6, 7, 8 and so on.
fn lend(
    rt: &impl Print,
    number: u32,
    c: Call,
    lanes: &[f32; 256],
    given_u: &[u32; 2098],
    given_f: &[f32; 256],
) -> io::Result<()> {
    let mut state_u = *given_u;
    let mut state_f = *given_f;
    let mut draws: [u32; 513] = [0; 513];
    let mut words: [u32; 8192] = [0; 8192];
    let mut floats: [f32; 8192] = [0.0; 8192];
    refusals::fill(&mut draws, 6);
    let state_u_long = c.state_u.min(state_u.len());
    let state_f_long = c.state_f.min(state_f.len());
    let words_long = c.words.min(words.len());
    let floats_long = c.floats.min(floats.len());
    call::called(
        rt,
        number,
        c,
        &lanes[..c.lanes.min(lanes.len())],
        &draws[..c.draws.min(draws.len())],
        &given_u[..c.state_u.min(given_u.len())],
        &given_f[..c.state_f.min(given_f.len())],
        &mut state_u[..state_u_long],
        &mut state_f[..state_f_long],
        &mut words[..words_long],
        &mut floats[..floats_long],
    )
}

fn one_call(rt: &impl Print, text: &[u8], c: Cursor, number: u32) -> io::Result<Cursor> {
    let call = given::read_call(text, c);
    let mut lanes: [f32; 256] = [0.0; 256];
    let mut words: [u32; 2098] = [0; 2098];
    let mut floats: [f32; 256] = [0.0; 256];
    let a = refusals::read_lanes(text, call.cursor, &mut lanes);
    call::write_state(call.value, &mut words, &mut floats);
    let b = given::harm_words(text, a.cursor, &mut words);
    let behind = given::harm_floats(text, b, &mut floats);
    lend(rt, number, call.value, &lanes, &words, &floats)?;
    Ok(behind)
}

// A proved loop has to end: it counts its turns, up to more calls than the list has.
fn every_call(rt: &impl Print, text: &[u8]) -> io::Result<Cursor> {
    let mut cursor = cases::start();
    for _ in 0..65536 {
        let number = cases::read_word(text, cursor);
        cursor = number.cursor;
        if number.value == 0 {
            break;
        }
        cursor = one_call(rt, text, cursor, number.value)?;
    }
    Ok(cursor)
}

// How many numbers were read, their sum, and the reader's fault.
fn say_end(rt: &impl Print, c: Cursor) -> io::Result<()> {
    let fault = cases::fault_number(c.fault);
    println!(rt; "numbers: {}, sum: {}, fault: {fault}", c.count, c.sum)
}

// Nodes in a line. Draw j is j, so nodes 2i and 2i + 1 meet twice each, and end in each other's list. The state before is not kept: no row holds.
fn most_nodes(rt: &impl Print) -> io::Result<()> {
    let mut lanes: [f32; 1024] = [0.0; 1024];
    let mut draws: [u32; 2048] = [0; 2048];
    let mut state_u: [u32; 300032] = [0; 300032];
    let mut state_f: [f32; 1024] = [0.0; 1024];
    let mut words: [u32; 528384] = [0; 528384];
    let mut floats: [f32; 528384] = [0.0; 528384];
    refusals::fill(&mut lanes, 0.0);
    refusals::fill(&mut draws, 0);
    for begins in [true, false] {
        call::called(
            rt,
            1024,
            given::most(begins),
            &lanes,
            &draws,
            &[],
            &[],
            &mut state_u,
            &mut state_f,
            &mut words,
            &mut floats,
        )?;
    }
    Ok(())
}

fn main(rt: HostRuntime) -> io::Result<()> {
    let mut room = cases::room();
    let n = inputs::read_full(&mut rt.reader(), &mut room)?;
    let end = every_call(&rt, &room[..n])?;
    say_end(&rt, end)?;
    most_nodes(&rt)
}
