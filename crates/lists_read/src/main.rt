// Reads each list that an argument names to its end, and prints its cases of each kind, its numbers with their sum, its fault, and that it is closed.
#![tactic(auto)]

use cases::Cursor;
use kinds::Kind;
use std::io;
use std::os::fd::{AsRawFd, RawFd};

// The cases passed, those of each kind, and the place in the list.
#[derive(Clone, Copy)]
struct Tally {
    passed: u32,
    of_kind: [u32; 6],
    cursor: Cursor,
}

// A case is passed and counted.
fn with_case(text: &[u8], t: Tally, kind: Kind, c: Cursor) -> Tally {
    let mut of_kind = t.of_kind;
    let at = kind as usize;
    of_kind[at] = of_kind[at].wrapping_add(1);
    Tally {
        passed: t.passed.wrapping_add(1),
        of_kind,
        cursor: kinds::pass_case(text, c, kind),
    }
}

// A proved loop has to end: it counts its turns, up to more cases than a list has.
fn counted(text: &[u8]) -> Tally {
    let mut t = Tally {
        passed: 0,
        of_kind: [0; 6],
        cursor: cases::start(),
    };
    for _ in 0..65536 {
        let case = kinds::next_case(text, t.cursor, t.passed);
        let Some(kind) = case.value else {
            return Tally {
                cursor: case.cursor,
                ..t
            };
        };
        t = with_case(text, t, kind, case.cursor);
    }
    t
}

fn print(rt: &impl Print, t: Tally) -> io::Result<()> {
    let [builds, searches, descents, iterations, relays, links] = t.of_kind;
    print!(rt;
        "{builds} builds, {searches} searches, {descents} descents, {iterations} single iterations, "
    )?;
    let Cursor { count, sum, .. } = t.cursor;
    println!(rt; "{relays} relays, {links} links; {count} numbers, sum {sum}")
}

// What went wrong first, and where.
fn print_fault(rt: &impl Print, c: Cursor) -> io::Result<()> {
    if c.fault.is_some() {
        let fault = cases::fault_number(c.fault);
        let at = c.at;
        println!(rt; "{fault} is the fault, at byte {at}")?;
    }
    Ok(())
}

// What the list that an argument names has, behind its name.
fn tell(rt: &HostRuntime, i: usize) -> io::Result<()> {
    let mut path = [0u8; 4096];
    let n = inputs::arg(rt, i, &mut path);
    rt.write_all(&path[..n])?;
    rt.write_all(b": ")?;
    let mut room = cases::room();
    let long = tallies::read_list(rt, Some(i), &mut room)?;
    let t = counted(&room[..long]);
    print(rt, t)?;
    print_fault(rt, t.cursor)
}

// The number that the system gives to a list: the first that no open file has. A list that cannot be opened gets none.
fn free_number(rt: &HostRuntime, i: usize) -> Option<RawFd> {
    let mut path = [0u8; 4096];
    let n = inputs::arg(rt, i, &mut path);
    let file = inputs::open(rt, &path[..n]).ok()?;
    Some(file.as_raw_fd())
}

// A list that was left open would keep its number from the file that is opened next.
fn read_list(rt: &HostRuntime, i: usize) -> io::Result<()> {
    let first = free_number(rt, i);
    tell(rt, i)?;
    if first.is_some() && first == free_number(rt, i) {
        println!(rt; "closed")?;
    }
    Ok(())
}

fn main(rt: HostRuntime) -> io::Result<()> {
    let count = inputs::arg_count(&rt);
    for i in 1..count {
        read_list(&rt, i)?;
    }
    Ok(())
}
