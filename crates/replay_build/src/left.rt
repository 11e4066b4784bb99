// What a build left, beside the list's.
ghost use Rattle.std.specs.Prelude.{◌≡◌};
ghost use Rattle.replay_build.specs.Left.{behind_steps, beside_at};

use cases::Cursor;
use tallies::{Difference, Outcome};

// Passes the lists after steps 1, 4 and 5: the graph says what they led to.
#[tactic(auto, unfolding(crate::specs::Left::behind_steps))]
fn pass_steps(text: &[u8], c: Cursor, n: usize, graph_long: usize) -> Cursor
    ensures { result ≡ behind_steps text.now n graph_long c }
{
    let exact = kinds::pass_runs(text, c, n);
    cases::pass(text, exact, cases::area(4, graph_long))
}

/// The graph beside the list's, where `differs` is known.
#[tactic(auto, unfolding(crate::specs::Left::beside_at))]
pub fn beside(
    text: &[u8],
    c: Cursor,
    n: usize,
    graph: &[u32],
    differs: Option<Difference>,
) -> Outcome
    ensures { result ≡ beside_at text.now c n graph.now differs }
{
    let at = pass_steps(text, c, n, graph.len());
    let a = replays::compare(text, at, graph);
    let o = Outcome {
        differs,
        cursor: a.cursor,
    };
    tallies::and(o, a.value.is_none(), Difference::Nodes)
}
