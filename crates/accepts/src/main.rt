// The program: prints whether it will do to take back the commits that its first argument names, as in `2,5`: `yes` or `no`.
// The log is on standard input, or in the file that the second names. Where the log or the list is turned away, the refusal is printed.
#![tactic(auto)]

mod named;

use crate::named::propose;
use input::{ARGUMENT, OfLog, argument, one_log, say};
use output::{ended, print_refused};
use plan::{Acceptance, accepts};
use std::io;
use std::rt::Runtime;
use verdict::answers::Refusal;
use verdict::{Log, Transaction};

// What is printed of a log: whether this proposal for it will do.
#[derive(Drop)]
struct Proposal {
    members: [u16; Transaction::COUNT],
}

impl OfLog for Proposal {
    fn print<P: Print>(&self, rt: &P, log: &[u16]) -> io::Result<()> {
        let mut work = [0u8; Log::WORK];
        match accepts(log, &self.members, &mut work) {
            Ok(acceptance) => match acceptance {
                Acceptance::Yes => rt.write_all(b"yes\n"),
                Acceptance::No => rt.write_all(b"no\n"),
            },
            Err(Refusal(number, place)) => print_refused(rt, number, place),
        }
    }
}

// Prints whether the proposal will do for the log that the program is given.
fn print_given(rt: &impl Runtime) -> io::Result<()> {
    let mut bytes = [0u8; ARGUMENT];
    let Some(members) = argument(rt, 1, &mut bytes).and_then(propose) else {
        say(
            rt,
            "accepts: name the transactions to take back, 1 to 128 with commas between, as in 2,5, or - for none",
        );
        return Ok(());
    };
    one_log(rt, "accepts", 2, &Proposal { members })
}

fn main(rt: HostRuntime) -> io::Result<()> {
    ended(print_given(&rt))
}
