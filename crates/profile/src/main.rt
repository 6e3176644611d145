// The report program: standard input to standard output. What is printed is `program::print`'s promise. Where a read or
// a write fails, standard error says so, and of an input that was not read to its end nothing is printed.

#![tactic(auto)]

ghost use Rattle.std.specs.Prelude.{◌<◌, ◌≤◌, length, take, IfOk};
ghost use Rattle.std.specs.Io.KnownBytes.{Consumes, IsAtEnd};

use std::io;
use std::io::Read;

// As many bytes as are read of an input: more than `program::print` takes.
const MOST: usize = 65536;

// Reads until the room is full or the input ends, and answers how many bytes it put at the start of the room; or the
// error of the first read that failed. Where a reader's bytes are known, those are its next ones, and all of them where
// the room is not full.
fn read_input<R: Read>(from: &mut R, room: &mut [u8]) -> io::Result<usize>
    requires { length room.old ≤ 65536 }
    ensures count { IfOk result (λ n. n ≤ length room.old) }
    ensures bytes { IfOk result (λ n. Consumes (R.remaining from.old) (R.remaining from.new) (take n room.new)) }
    ensures end { IfOk result (λ n. n < length room.old → IsAtEnd (R.remaining from.new)) }
{
    let mut n = 0;
    while n < room.len() {
        let more = from.read(&mut room[n..])?;
        if more == 0 {
            return Ok(n);
        }
        n += more;
    }
    Ok(n)
}

// Prints what comes of an input.
fn answer(rt: &(impl Print + Eprint), input: &[u8]) {
    let mut out = [0u8; program::ROOM];
    let m = program::print(input, &mut out);
    if rt.write_all(&out[..m]).is_err() {
        let _ = rt.eprintln("profile: the answer cannot be written");
    }
}

fn main(rt: HostRuntime) {
    let mut input = [0u8; MOST];
    match read_input(&mut rt.stdin(), &mut input) {
        Ok(n) => answer(&rt, &input[..n]),
        Err(_) => {
            let _ = rt.eprintln("profile: the input cannot be read");
        }
    }
}
