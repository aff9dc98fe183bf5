// The program: draws the log on standard input, or in the file that its argument names, as an SVG: a lane for each transaction, and
// the version verdict, as arrows, an order or a ring. A log that is turned away gets the line of its refusal instead.
#![tactic(auto)]

mod arrows;
mod drawing;
mod lanes;
mod legend;
mod marks;
mod page;
mod steps;
mod texts;

use crate::drawing::Drawing;
use crate::page::Shown;
use crate::steps::{Steps, small};
use input::{OfLog, one_log};
use output::{ended, print_refused};
use std::io;
use verdict::answers::{Answer, Refusal};
use verdict::{Log, Transaction, fault_step, version};

// What an answer shows. One that has neither an order nor a cycle shows an order of nobody.
fn shown(answer: Answer) -> Shown {
    match answer {
        Answer::Order(n) => Shown::Order(small(n)),
        Answer::Cycle(n) => Shown::Cycle(small(n)),
        Answer::None => Shown::Order(0),
        Answer::Unclean(fault) => Shown::Unclean(small(fault_step(fault))),
    }
}

// What is printed of a log: its picture, if it is not turned away.
struct Picture;

impl OfLog for Picture {
    fn print<P: Print>(&self, rt: &P, log: &[u16]) -> io::Result<()> {
        let mut work = [0u8; Log::WORK];
        let mut witness = [0u16; Transaction::WITNESS];
        match version(log, &mut work, &mut witness) {
            Ok(judged) => Drawing::new(Steps { log }, shown(judged), &witness).print(rt),
            Err(Refusal(number, place)) => print_refused(rt, number, place),
        }
    }
}

fn main(rt: HostRuntime) -> io::Result<()> {
    ended(one_log(&rt, "picture", 1, &Picture))
}
