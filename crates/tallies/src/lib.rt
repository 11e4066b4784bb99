// What tests over files read, count and say: a list, how a case came out, and how many did; and the replay of a list.
#![tactic(auto)]

ghost use Rattle.std.specs.Prelude.{◌≡◌, ℕ, List, IfOk, IsOk, None, Option, OnErr, length};
ghost use Rattle.std.specs.Io.{ReadsAtMost};
ghost use Rattle.pages.specs.Page.{Puts};
ghost use Rattle.tallies.specs.Tallies.{no_case, fresh_at, moved_to, joined, scratched, counted, closed, differs_text, tally_text, tallied, Comes};
ghost use Rattle.cases.specs.declared.Cursor.{Cursor};
ghost use Rattle.kinds.specs.declared.Kind.{Kind};
ghost use Rattle.tallies.specs.declared.Outcome.{Outcome};

use cases::{Cursor, Fault, Read};
use kinds::Kind;
use std::env::Env;
use std::fs::Files;
use std::io;

/// What can differ in a case.
#[derive(Clone, Copy, PartialEq, Eq)]
pub enum Difference {
    /// A case of the list was refused.
    Refused,
    /// A length differs.
    Length,
    /// Node numbers differ.
    Nodes,
    /// Distance bits differ.
    Bits,
    /// A count differs: takings, a cost, a total of new, a report.
    Count,
    /// A place that no rule writes has changed.
    Beyond,
    /// Scratch is not all zero.
    Scratch,
    /// Other words differ: contexts, visited pairs.
    Words,
}

/// What lent places hold before a call.
pub const JUNK: u32 = 0xCDCD_CDCD;

/// What differs first in a case, and the place behind it.
#[derive(Clone, Copy)]
pub struct Outcome {
    pub differs: Option<Difference>,
    pub cursor: Cursor,
}

/// The cases compared, those that differ, and the place in the list.
#[derive(Clone, Copy)]
pub struct Tally {
    pub compared: u32,
    pub differ: u32,
    pub cursor: Cursor,
}

/// No case yet.
#[tactic(auto, unfolding(crate::specs::Tallies::no_case))]
pub fn none() -> Tally
    ensures { result ≡ no_case }
{
    Tally {
        compared: 0,
        differ: 0,
        cursor: cases::start(),
    }
}

/// Nothing differs yet.
pub fn fresh(cursor: Cursor) -> Outcome
    ensures { result ≡ fresh_at cursor }
{
    Outcome {
        differs: None,
        cursor,
    }
}

/// What differs so far, with another place in the list.
pub fn at(o: Outcome, cursor: Cursor) -> Outcome
    ensures { result ≡ moved_to o cursor }
{
    Outcome { cursor, ..o }
}

/// The outcome, or what differs where nothing did before.
#[tactic(auto, unfolding(crate::specs::Tallies::joined))]
pub fn and(o: Outcome, fine: bool, differs: Difference) -> Outcome
    ensures { result ≡ joined o fine differs }
{
    if fine {
        return o;
    }
    Outcome {
        differs: o.differs.or(Some(differs)),
        ..o
    }
}

/// The outcome with that of scratch, which is all zero after success.
#[tactic(auto, unfolding(crate::specs::Tallies::scratched))]
pub fn with_scratch(o: Outcome, words: &[u32], floats: &[f32]) -> Outcome
    ensures { result ≡ scratched o words.now floats.now }
{
    let p = and(o, replays::all_words(words, 0, 0), Difference::Scratch);
    and(p, replays::all_zero(floats), Difference::Scratch)
}

#[tactic(auto, unfolding(crate::specs::Tallies::differs_text, pages::specs::Page::bytes))]
fn text_of(differs: Difference) -> &'static [u8]
    ensures { result.now ≡ differs_text differs }
{
    match differs {
        Difference::Refused => b" is refused\n",
        Difference::Length => b" differs in a length\n",
        Difference::Nodes => b" differs in node numbers\n",
        Difference::Bits => b" differs in distance bits\n",
        Difference::Count => b" differs in a count\n",
        Difference::Beyond => b" changes a place that is not its own\n",
        Difference::Scratch => b" leaves scratch that is not zero\n",
        Difference::Words => b" differs in other words\n",
    }
}

fn say(rt: &impl Print, case: u32, differs: Difference) -> io::Result<()> {
    let mut page: [u8; 64] = [0; 64];
    let number = pages::put_word(&mut page, 0, b"case ", case);
    let end = pages::put(&mut page, number, text_of(differs));
    rt.write_all(pages::text(&page, end))
}

/// The tally with one case more. What differs is said at once, which alone can fail.
#[tactic(auto, unfolding(crate::specs::Tallies::counted))]
pub fn with_case(rt: &impl Print, t: Tally, o: Outcome) -> io::Result<Tally>
    ensures value { IfOk result (λ more. more ≡ counted t o) }
    ensures unsaid { o.differs ≡ None → IsOk result }
{
    let compared = t.compared.wrapping_add(1);
    let cursor = o.cursor;
    let mut differ = t.differ;
    if let Some(differs) = o.differs {
        say(rt, compared, differs)?;
        differ = differ.wrapping_add(1);
    }
    Ok(Tally {
        compared,
        differ,
        cursor,
    })
}

/// Puts the tally on a page: what was compared, how many differ, and the numbers read with their sum.
pub fn put_tally(page: &mut [u8], at: usize, label: &[u8], t: Tally) -> usize
    ensures { Puts at (tally_text label.now t) page.old result page.new }
{
    let c = t.cursor;
    let compared = pages::put_word(page, at, label, t.compared);
    let differ = pages::put_word(page, compared, b"\nthat differ: ", t.differ);
    let count = pages::put_word(page, differ, b"\nnumbers: ", c.count);
    let sum = pages::put_word(page, count, b", sum: ", c.sum);
    let fault = pages::put_word(page, sum, b", fault: ", cases::fault_number(c.fault));
    pages::put(page, fault, b"\n")
}

/// The tally at the end of the list; a case of another kind is a fault.
#[tactic(auto, unfolding(crate::specs::Tallies::closed))]
pub fn ended(t: Tally, case: Read<Option<Kind>>) -> Tally
    ensures { result ≡ closed t case }
{
    let cursor = if case.value.is_some() {
        cases::faulted(case.cursor, Fault::Unexpected)
    } else {
        case.cursor
    };
    Tally { cursor, ..t }
}

// A proved loop has to end: it counts its turns, up to more cases than a list has.
fn replayed<F: Fn(&[u8], Kind, Cursor) -> Option<Outcome>>(
    rt: &impl Print,
    text: &[u8],
    one_case: F,
) -> io::Result<Tally>
    requires { F.IsAlwaysCallable one_case }
    ensures { (came : List ℕ → Kind → Cursor → Option Outcome) → Comes (F.post one_case) came
        → IfOk result (λ t. t ≡ tallied came 65536 text.now no_case) }
{
    let mut t = none();
    for _turn in 0..65536usize {
        let case = kinds::next_case(text, t.cursor, t.compared);
        let Some(kind) = case.value else {
            return Ok(ended(t, case));
        };
        let Some(o) = one_case(text, kind, case.cursor) else {
            return Ok(ended(t, case));
        };
        t = with_case(rt, t, o)?;
    }
    Ok(t)
}

/// Replays a list and prints its tally, behind `label`, which it answers; `one_case` answers how a case came out, and nothing for one of another kind.
/// The Rust's list has nothing that differs, so the lists that arguments name, wrong on purpose, show that what differs is said.
pub fn replay<F: Fn(&[u8], Kind, Cursor) -> Option<Outcome>>(
    rt: &impl Print,
    label: &[u8],
    text: &[u8],
    one_case: F,
) -> io::Result<Tally>
    requires { F.IsAlwaysCallable one_case }
    ensures { (came : List ℕ → Kind → Cursor → Option Outcome) → Comes (F.post one_case) came
        → IfOk result (λ t. t ≡ tallied came 65536 text.now no_case) }
{
    let t = replayed(rt, text, one_case)?;
    let mut page: [u8; 256] = [0; 256];
    let end = put_tally(&mut page, 0, label, t);
    rt.write_all(pages::text(&page, end))?;
    Ok(t)
}

fn read_named(rt: &(impl Env + Files + Print), i: usize, room: &mut [u8]) -> io::Result<usize>
    ensures ok { ReadsAtMost result room.new }
    ensures err { OnErr result (length room.new ≡ length room.old) }
{
    let mut path = [0u8; 4096];
    let n = inputs::arg(rt, i, &mut path);
    let Ok(mut file) = inputs::open(rt, &path[..n]) else {
        rt.write_all(&path[..n])?;
        println!(rt; " cannot be read")?;
        return Ok(0);
    };
    inputs::read_full(&mut file, room)
}

/// Reads a list to the front of the room, and answers its length: from standard input, or from the file that an argument names; one that cannot be opened is said, and
/// empty. A read or a write that fails ends this with its error, and the room then holds what was read before.
pub fn read_list(
    rt: &(impl Env + Files + Input + Print),
    file: Option<usize>,
    room: &mut [u8],
) -> io::Result<usize>
    ensures ok { ReadsAtMost result room.new }
    ensures err { OnErr result (length room.new ≡ length room.old) }
{
    match file {
        Some(i) => read_named(rt, i, room),
        None => inputs::read_full(&mut rt.reader(), room),
    }
}
