// What a program is given: its arguments, and bytes read from standard input or a file into lent places.
#![tactic(auto)]

ghost use Rattle.std.specs.Prelude.{ℕ, ◌≤◌, ◌<◌, length, take, IfOk, OnErr};
ghost use Rattle.std.specs.Io.{ReadsAtMost};
ghost use Rattle.std.specs.Io.KnownBytes.{Consumes, IsAtEnd};

use std::env::{Env, FillError};
use std::fs::{File, Files};
use std::io;
use std::io::{ErrorKind, Read};

// Whether the program was started with an argument of this number.
fn has_arg(env: &impl Env, i: usize) -> bool {
    !matches!(env.arg(i, &mut []), Err(FillError::NotPresent))
}

/// How many arguments the program was started with, its own name among them.
pub fn arg_count(env: &impl Env) -> usize {
    (0..usize::MAX)
        .find(|i| !has_arg(env, *i))
        .unwrap_or(usize::MAX)
}

/// Puts an argument at the front of the room, and answers its length: 0 where it is missing or longer than the room.
pub fn arg(env: &impl Env, i: usize, room: &mut [u8]) -> usize
    ensures { result ≤ length room.new }
{
    env.arg(i, room).unwrap_or(0)
}

/// Opens a file to be read. A name that is not UTF-8 cannot be given to the system, and so is refused as an invalid one.
pub fn open<R: Files>(files: &R, name: &[u8]) -> io::Result<R::File> {
    match str::from_utf8(name) {
        Ok(path) => File::open(files, path),
        Err(_) => Err(io::Error::from(ErrorKind::InvalidInput)),
    }
}

/// Reads until the room is full or the input ends, and answers how many bytes stand at the room's front. A read that fails ends this with its error.
pub fn read_full<R: Read>(from: &mut R, room: &mut [u8]) -> io::Result<usize>
    ensures in_bounds { ReadsAtMost result room.new }
    ensures bytes { IfOk result (λ n. Consumes (R.remaining from.old) (R.remaining from.new) (take n room.new)) }
    ensures err { OnErr result ((n : ℕ) × (n ≤ length room.new) × Consumes (R.remaining from.old) (R.remaining from.new) (take n room.new)) }
    ensures whole { IfOk result (λ n. n < length room.old → IsAtEnd (R.remaining from.new)) }
{
    let mut done = 0;
    while done < room.len() {
        let n = from.read(&mut room[done..])?;
        if n == 0 {
            break;
        }
        done += n;
    }
    Ok(done)
}
