// The program: prints which commits of the log on standard input, or in each file named, are to be taken back, as in `redo 2 5`.
// A log that is turned away gets the line of its refusal instead.
#![tactic(auto)]

use input::{OfLog, each_log};
use output::{ended, print_numbers, print_refused};
use plan::redo;
use std::io;
use verdict::answers::Refusal;
use verdict::{Log, Transaction};

// What is printed of a log: which of its commits are to be taken back.
struct TakenBack;

impl OfLog for TakenBack {
    fn print<P: Print>(&self, rt: &P, log: &[u16]) -> io::Result<()> {
        let mut work = [0u8; Log::WORK];
        let mut members = [0u16; Transaction::COUNT];
        match redo(log, &mut work, &mut members) {
            Ok(n) => print_numbers(rt, "redo", &members[..n]),
            Err(Refusal(number, place)) => print_refused(rt, number, place),
        }
    }
}

fn main(rt: HostRuntime) -> io::Result<()> {
    ended(each_log(&rt, &TakenBack))
}
