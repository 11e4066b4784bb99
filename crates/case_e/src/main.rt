// Case E of the settled squares: roots 0 and 3, k 2, query 7 on C's graph; prints each rank, its node and the bits of its distance.
#![tactic(auto)]

ghost use Rattle.std.specs.Prelude.{◌≡◌};
ghost use Rattle.case_e.specs.Square.{lanes_of_squares, graph_of_c, roots_of_e, query_of_e};

use std::io;

// What is searched is said by contracts: the two nodes that are found do not tell every number of it.
fn lanes() -> [f32; 4]
    ensures { result ≡ lanes_of_squares }
{
    [0.0, 1.0, 3.0, 7.0]
}

fn graph() -> [u32; 8]
    ensures { result ≡ graph_of_c }
{
    [1, 2, 0, 2, 1, 2, 2, 4]
}

fn roots() -> [u32; 2]
    ensures { result ≡ roots_of_e }
{
    [0, 3]
}

fn query() -> [f32; 1]
    ensures { result ≡ query_of_e }
{
    [7.0]
}

fn main(rt: HostRuntime) -> io::Result<()> {
    let lanes = lanes();
    let graph = graph();
    let roots = roots();
    let query = query();
    let mut nodes: [u32; 2] = [0; 2];
    let mut bits: [u32; 2] = [0; 2];
    let mut scratch_u: [u32; 1040] = [0; 1040];
    let mut scratch_f: [f32; 1040] = [0.0; 1040];
    let a = search::search(
        1,
        4,
        &lanes,
        &graph,
        2,
        &roots,
        &query,
        2,
        &mut nodes,
        &mut bits,
        &mut scratch_u,
        &mut scratch_f,
    );
    let Ok(_) = a else {
        return Ok(());
    };
    println!(rt; "rank,node,bits")?;
    for (i, node) in nodes.iter().enumerate() {
        let rank = i + 1;
        let bits = bits[i];
        println!(rt; "{rank},{node},{bits}")?;
    }
    Ok(())
}
