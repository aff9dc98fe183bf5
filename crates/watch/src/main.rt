// The program: answers each step line of standard input at once, with one line, as the live judge does.
#![tactic(auto)]

mod begun;
mod judge;

use crate::begun::Begun;
use crate::judge::{Judge, print_formless};
use input::{arg_count, say};
use output::ended;
use std::io;
use std::io::Read;
use std::rt::Runtime;

// How many bytes are read at once.
const PIECE: usize = 4096;

// Takes the bytes in that came, and answers each line that they end.
fn take_in(rt: &impl Print, judge: &mut Judge, line: &mut Begun, bytes: &[u8]) -> io::Result<()> {
    for byte in bytes {
        line.push(*byte);
        if *byte == b'\n' {
            judge.answer_line(rt, line)?;
            *line = Begun::new(false);
        }
    }
    Ok(())
}

// Reads standard input to its end, from a fresh state on, and answers its lines. What is left of a line that has no end is not in form. A
// loop has to end, and nothing says that the input does: it counts its reads, up to a number that no run uses up. Where reading fails,
// standard error has a line.
fn watch(rt: &impl Runtime) -> io::Result<()> {
    let mut judge = Judge::new();
    let mut line = Begun::new(true);
    let mut from = rt.reader();
    let mut bytes = [0u8; PIECE];
    for _ in 0..u64::MAX {
        match from.read(&mut bytes) {
            Ok(0) => break,
            Ok(n) => take_in(rt, &mut judge, &mut line, &bytes[..n])?,
            Err(error) => {
                say(rt, format_args!("standard input: {error}"));
                return Ok(());
            }
        }
    }
    if line.is_empty() {
        return Ok(());
    }
    print_formless(rt)
}

fn main(rt: HostRuntime) -> io::Result<()> {
    if 1 < arg_count(&rt) {
        say(&rt, "watch: it reads standard input only");
        return Ok(());
    }
    ended(watch(&rt))
}
