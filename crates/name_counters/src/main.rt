// Names counters: reads the games that its arguments name, teaches each, looks its queries up, and prints a table for a person and tables for a program.
#![tactic(auto)]

use games::{Game, Wrong};
use rules::Refusal;
use std::env::Env;
use std::fs::Files;
use std::io;
use tables::Taught;

mod files;
mod rooms;
mod tables;

fn teach(g: Game, lanes: &[f32], graph: &mut [u32]) -> Result<(), Refusal> {
    build::build(
        g.params,
        g.dimension,
        g.n,
        lanes,
        graph,
        &mut rooms::words_room(),
        &mut rooms::floats_room(),
    )
}

// Teaches the game, whose counters' lanes stand in front of the queries', and asks its queries.
fn play(
    rt: &impl Print,
    text: &[u8],
    game: Game,
    wholes: &[u32],
    values: &[f32],
) -> io::Result<()> {
    let mut room = rooms::graph_room();
    let long = cases::area(game.n, game.params.index_size).min(room.len());
    let graph = &mut room[..long];
    let (lanes, queries) = values.split_at(cases::area(game.n, game.dimension).min(values.len()));
    match teach(game, lanes, graph) {
        Ok(()) => {
            let taught = Taught {
                text,
                game,
                wholes,
                lanes,
                queries,
                graph,
            };
            taught.put(rt)
        }
        Err(r) => {
            print!(rt; "the game is refused")?;
            tables::put_refusal(rt, r)
        }
    }
}

// What is wrong with a file, and where.
fn put_wrong(rt: &impl Print, text: &[u8], w: Wrong) -> io::Result<()> {
    print!(rt; "line {}: {}, where it says: ", w.game.line, w.fault)?;
    rt.write_all(tables::words(text, w.game.place))
}

fn name_counters(rt: &impl Print, text: &[u8]) -> io::Result<()> {
    let mut wholes: [u32; 388] = [0; 388];
    let mut values = rooms::values_room();
    match games::read(text, &mut wholes, &mut values) {
        Ok(game) => play(rt, text, game, &wholes, &values),
        Err(w) => put_wrong(rt, text, w),
    }
}

// A game that is read from standard input, or from the file that an argument names.
fn name_file(rt: &(impl Env + Files + Input + Print), file: Option<usize>) -> io::Result<()> {
    let mut room = rooms::text_room();
    let n = tallies::read_list(rt, file, &mut room)?;
    if files::too_long(n) {
        return println!(rt; "the file is longer than 65,535 bytes");
    }
    name_counters(rt, &room[..n])?;
    println!(rt)
}

// The argument that names a file: none where it is `-` or the program's own name. One that is longer than its room has length 0 there, and so is no `-`.
fn source(env: &impl Env, i: usize) -> Option<usize> {
    let mut name: [u8; 1] = [0; 1];
    let n = inputs::arg(env, i, &mut name);
    (i != 0 && !files::is_dash(&name[..n])).then_some(i)
}

fn main(rt: HostRuntime) -> io::Result<()> {
    let count = inputs::arg_count(&rt);
    for i in files::first(count)..count {
        name_file(&rt, source(&rt, i))?;
    }
    Ok(())
}
