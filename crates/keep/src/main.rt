// The program: prints the text of a log with only the steps of the transactions that its first argument names, as in `1,3`.
// The log is on standard input, or in the file that the second names. Where what is kept is turned away, its refusal is printed.
#![tactic(auto)]

mod kept;
mod named;

use crate::kept::keep_steps;
use crate::named::mark_named;
use input::{ARGUMENT, OfLog, argument, one_log, say};
use output::{ended, print_refused};
use std::io;
use std::rt::Runtime;
use text::{Text, write};
use verdict::answers::Refusal;
use verdict::{Log, Transaction};

// Prints the text of a log.
fn print_text(rt: &impl Print, log: &[u16]) -> io::Result<()> {
    let mut out = [0u8; Text::WRITTEN];
    match write(log, &mut out) {
        Ok(n) => rt.write_all(&out[..n]),
        Err(Refusal(number, place)) => print_refused(rt, number, place),
    }
}

// What is printed of a log: its text with only the steps of the transactions that are marked. A log that is longer than a log may be is
// turned away.
#[derive(Drop)]
struct Marks {
    marks: [u8; Transaction::TABLE],
}

impl OfLog for Marks {
    fn print<P: Print>(&self, rt: &P, log: &[u16]) -> io::Result<()> {
        let mut kept = [0u16; 4 * Log::LIMIT];
        if kept.len() < log.len() {
            return print_refused(rt, 2, 0);
        }
        let n = keep_steps(log, &self.marks, &mut kept);
        print_text(rt, &kept[..n])
    }
}

// Prints what is kept of the log that the program is given.
fn print_given(rt: &impl Runtime) -> io::Result<()> {
    let mut bytes = [0u8; ARGUMENT];
    let Some(marks) = argument(rt, 1, &mut bytes).and_then(mark_named) else {
        say(
            rt,
            "keep: name the transactions to keep, 1 to 128 with commas between, as in 1,3",
        );
        return Ok(());
    };
    one_log(rt, "keep", 2, &Marks { marks })
}

fn main(rt: HostRuntime) -> io::Result<()> {
    ended(print_given(&rt))
}
