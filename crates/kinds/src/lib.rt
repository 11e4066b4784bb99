// The kinds of the oracle's cases, the next case of a list, and what passes one of each kind and its parts, by the format of oracle/README.md.
#![tactic(auto)]

ghost use Rattle.std.specs.Prelude.{◌≡◌};
ghost use Rattle.cases.specs.declared.Cursor.{Cursor};
ghost use Rattle.kinds.specs.Kinds.{kind_of, kind_at, behind_runs, behind_state, behind_iterations, behind_moves, behind_build, behind_search, behind_descent, behind_alone, behind_relay, behind_links, behind_case, times, Steps};

use cases::{Cursor, Read};

/// The kinds of case in the oracle's lists.
#[derive(Clone, Copy, PartialEq, Eq)]
pub enum Kind {
    Build,
    Search,
    Descent,
    Iteration,
    Relay,
    Links,
}

#[tactic(auto, unfolding(crate::specs::Kinds::kind_of))]
fn kind_of(number: u32) -> Option<Kind>
    ensures { result ≡ kind_of number }
{
    match number {
        1 => Some(Kind::Build),
        2 => Some(Kind::Search),
        3 => Some(Kind::Descent),
        4 => Some(Kind::Iteration),
        5 => Some(Kind::Relay),
        6 => Some(Kind::Links),
        _ => None,
    }
}

/// Reads the number and the kind of the next case, after `passed` cases: there is none where the list ends or something went wrong, which the cursor says.
#[tactic(auto, unfolding(crate::specs::Kinds::kind_at))]
pub fn next_case(text: &[u8], c: Cursor, passed: u32) -> Read<Option<Kind>>
    ensures { result ≡ kind_at text.now passed c }
{
    let case = replays::next_case(text, c, passed);
    Read {
        value: case.value.and_then(kind_of),
        cursor: case.cursor,
    }
}

// No length in a list is larger.
const MOST: usize = 65536;

// Takes `count` steps; none behind a fault.
fn times<F: Fn(Cursor) -> Cursor>(c: Cursor, count: usize, step: F) -> Cursor
    requires { F.IsAlwaysCallable step }
    ensures { (made : Cursor → Cursor) → Steps (F.post step) made → result ≡ times made count c }
{
    let mut cursor = c;
    for _ in 0..count {
        if cursor.fault.is_some() {
            return cursor;
        }
        cursor = step(cursor);
    }
    cursor
}

/// Passes `count` runs, each after its length.
pub fn pass_runs(text: &[u8], c: Cursor, count: usize) -> Cursor
    ensures { result ≡ behind_runs text.now count c }
{
    times(c, count, |cursor| {
        let length = cases::read_size(text, cursor, MOST);
        cases::pass(text, length.cursor, length.value)
    })
}

// Passes a build: d, n, `init_k`, L, `neighbor_neighbor_size`, the threshold and the lanes; n exact
// lists; the rows after steps 4 and 5, nodes and bits, and the graph.
#[tactic(auto, unfolding(crate::specs::Kinds::behind_build))]
fn build(text: &[u8], c: Cursor) -> Cursor
    ensures { result ≡ behind_build text.now c }
{
    let d = cases::read_size(text, c, MOST);
    let n = cases::read_size(text, d.cursor, MOST);
    let init_k = cases::read_word(text, n.cursor);
    let row = cases::read_size(text, init_k.cursor, MOST);
    let given = cases::pass(text, row.cursor, 2 + cases::area(n.value, d.value));
    let exact = pass_runs(text, given, n.value);
    cases::pass(text, exact, 5 * cases::area(n.value, row.value))
}

// Passes a search: d, n, L, k, the roots, the lanes, the query and the graph; m, nodes and bits, and
// the takings.
#[tactic(auto, unfolding(crate::specs::Kinds::behind_search))]
fn search(text: &[u8], c: Cursor) -> Cursor
    ensures { result ≡ behind_search text.now c }
{
    let d = cases::read_size(text, c, MOST);
    let n = cases::read_size(text, d.cursor, MOST);
    let row = cases::read_size(text, n.cursor, MOST);
    let k = cases::read_word(text, row.cursor);
    let roots = pass_runs(text, k.cursor, 1);
    let given = cases::pass(
        text,
        roots,
        cases::area(n.value, d.value) + d.value + cases::area(n.value, row.value),
    );
    let m = cases::read_size(text, given, MOST);
    cases::pass(text, m.cursor, 2 * m.value + 1)
}

/// Passes a descent's state: lists, four contexts for each node, and the visited pairs.
#[tactic(auto, unfolding(crate::specs::Kinds::behind_state))]
pub fn pass_state(text: &[u8], c: Cursor, n: usize, k: usize) -> Cursor
    ensures { result ≡ behind_state text.now n k c }
{
    let lists = cases::pass(text, c, 2 * cases::area(n, k));
    let contexts = pass_runs(text, lists, cases::area(4, n));
    cases::pass(text, contexts, (cases::area(n, n) + 31) / 32)
}

// Passes what `count` iterations answer: the cost, the total of new and the state.
fn iterations(text: &[u8], c: Cursor, count: usize, n: usize, k: usize) -> Cursor
    ensures { result ≡ behind_iterations text.now count n k c }
{
    times(
        c,
        count,
        |cursor| pass_state(text, cases::pass(text, cursor, 2), n, k),
    )
}

// Passes a descent: d, n, k, s, the lanes, the draws; the states.
#[tactic(auto, unfolding(crate::specs::Kinds::behind_descent))]
fn descent(text: &[u8], c: Cursor) -> Cursor
    ensures { result ≡ behind_descent text.now c }
{
    let d = cases::read_size(text, c, MOST);
    let n = cases::read_size(text, d.cursor, MOST);
    let k = cases::read_size(text, n.cursor, MOST);
    let lanes = cases::pass(text, k.cursor, 1 + cases::area(n.value, d.value));
    let begin = pass_runs(text, lanes, 1);
    let count = cases::read_size(text, begin, MOST);
    let draws = pass_runs(text, count.cursor, count.value);
    let begun = pass_state(text, draws, n.value, k.value);
    iterations(text, begun, count.value, n.value, k.value)
}

// Passes one iteration from a given state.
#[tactic(auto, unfolding(crate::specs::Kinds::behind_alone))]
fn iteration(text: &[u8], c: Cursor) -> Cursor
    ensures { result ≡ behind_alone text.now c }
{
    let d = cases::read_size(text, c, MOST);
    let n = cases::read_size(text, d.cursor, MOST);
    let k = cases::read_size(text, n.cursor, MOST);
    let lanes = cases::pass(text, k.cursor, 1 + cases::area(n.value, d.value));
    let given = pass_state(text, lanes, n.value, k.value);
    let draws = pass_runs(text, given, 1);
    iterations(text, draws, 1, n.value, k.value)
}

// Passes the list that each of `count` moves left: its length, nodes and bits.
fn moves(text: &[u8], c: Cursor, count: usize) -> Cursor
    ensures { result ≡ behind_moves text.now count c }
{
    times(c, count, |cursor| {
        let length = cases::read_size(text, cursor, MOST);
        cases::pass(text, length.cursor, 2 * length.value)
    })
}

// Passes a relay: d, n, k, the lanes, the lists, the jobs and the moves; what each move left, the
// lists at the end, and two reports for each job.
#[tactic(auto, unfolding(crate::specs::Kinds::behind_relay))]
fn relay(text: &[u8], c: Cursor) -> Cursor
    ensures { result ≡ behind_relay text.now c }
{
    let d = cases::read_size(text, c, MOST);
    let n = cases::read_size(text, d.cursor, MOST);
    let k = cases::read_size(text, n.cursor, MOST);
    let lists = 2 * cases::area(n.value, k.value);
    let given = cases::pass(text, k.cursor, cases::area(n.value, d.value) + lists);
    let jobs = cases::read_size(text, given, MOST);
    let pairs = cases::pass(text, jobs.cursor, 2 * jobs.value);
    let count = cases::read_size(text, pairs, MOST);
    let order = cases::pass(text, count.cursor, count.value);
    let made = moves(text, order, count.value);
    cases::pass(text, made, lists + 2 * jobs.value)
}

// Passes step 5 alone: d, n, L, the threshold, the lanes, and the rows before and after.
#[tactic(auto, unfolding(crate::specs::Kinds::behind_links))]
fn links(text: &[u8], c: Cursor) -> Cursor
    ensures { result ≡ behind_links text.now c }
{
    let d = cases::read_size(text, c, MOST);
    let n = cases::read_size(text, d.cursor, MOST);
    let row = cases::read_size(text, n.cursor, MOST);
    cases::pass(
        text,
        row.cursor,
        1 + cases::area(n.value, d.value) + 4 * cases::area(n.value, row.value),
    )
}

/// Passes the input and the answer of a case.
#[tactic(auto, unfolding(crate::specs::Kinds::behind_case))]
pub fn pass_case(text: &[u8], c: Cursor, kind: Kind) -> Cursor
    ensures { result ≡ behind_case text.now kind c }
{
    match kind {
        Kind::Build => build(text, c),
        Kind::Search => search(text, c),
        Kind::Descent => descent(text, c),
        Kind::Iteration => iteration(text, c),
        Kind::Relay => relay(text, c),
        Kind::Links => links(text, c),
    }
}
