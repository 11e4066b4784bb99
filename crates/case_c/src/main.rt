// Square C of the settled squares: the graphs of width 2 and 3, every place of each row.
#![tactic(auto)]

ghost use Rattle.std.specs.Prelude.{◌≡◌};
ghost use Rattle.case_c.specs.Square.{lanes_of_squares, params_of_squares};

use params::SsgParams;
use std::io;

// What is taught is said by contracts: four counters are too few for the graph to tell every number of it.
fn lanes() -> [f32; 4]
    ensures { result ≡ lanes_of_squares }
{
    [0.0, 1.0, 3.0, 7.0]
}

fn params_of(index_size: usize) -> SsgParams
    ensures { result ≡ params_of_squares index_size }
{
    SsgParams::default()
        .init_k(2)
        .index_size(index_size)
        .neighbor_neighbor_size(10)
        .threshold(0.5)
}

fn say(rt: &impl Print, name: &[u8], index_size: usize, graph: &[u32]) -> io::Result<()> {
    let mut page: [u8; 128] = [0; 128];
    let named = pages::put(&mut page, 0, name);
    let behind = refusals::put_graph(&mut page, named, graph, index_size);
    let end = pages::put(&mut page, behind, b"\n");
    rt.write_all(pages::text(&page, end))
}

// The graph of the squares' lanes, in as many places as are lent for it.
fn square(rt: &impl Print, name: &[u8], index_size: usize, graph: &mut [u32]) -> io::Result<()> {
    let lanes = lanes();
    let mut scratch_u: [u32; 4176] = [0; 4176];
    let mut scratch_f: [f32; 4176] = [0.0; 4176];
    let params = params_of(index_size);
    let answer = build::build(params, 1, 4, &lanes, graph, &mut scratch_u, &mut scratch_f);
    let Ok(()) = answer else {
        return Ok(());
    };
    say(rt, name, index_size, graph)
}

fn main(rt: HostRuntime) -> io::Result<()> {
    let mut narrow: [u32; 8] = [0; 8];
    square(&rt, b"index_size 2", 2, &mut narrow)?;
    let mut wide: [u32; 12] = [0; 12];
    square(&rt, b"index_size 3", 3, &mut wide)
}
