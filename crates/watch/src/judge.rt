// The answer to a line: what the live judge says of its step, or 16 where it is not in form.
use crate::begun::Begun;
use live::{BREACH, CLOSED, EDGES, MARKS, OPENED, ROWS, STATE, TAKEN, YES, live};
use std::io;
use text::OneLine;
use verdict::answers::Refusal;

// Prints the answer to a line that is not in form, whose number is always the same.
pub(crate) fn print_formless(rt: &impl Print) -> io::Result<()> {
    rt.write_all(b"refused=16\n")
}

// Prints the line of a refused step.
fn print_refused(rt: &impl Print, number: u16) -> io::Result<()> {
    println!(rt; "refused={number}")
}

// Prints the answer to a step.
fn print_said(rt: &impl Print, said: u16) -> io::Result<()> {
    match said {
        TAKEN => rt.write_all(b"taken\n"),
        YES => rt.write_all(b"yes\n"),
        BREACH => rt.write_all(b"breach\n"),
        CLOSED => rt.write_all(b"cycle closed\n"),
        _ => print_refused(rt, said),
    }
}

// The live judge, by the buffers that hold its state.
#[derive(Drop)]
pub(crate) struct Judge {
    state: [u16; STATE],
    opened: [u16; OPENED],
    rows: [u16; ROWS],
    marks: [u64; MARKS],
    edges: [u64; EDGES],
}

impl Judge {
    // A judge who has seen no step.
    pub(crate) fn new() -> Judge {
        Judge {
            state: [0; STATE],
            opened: [0; OPENED],
            rows: [0; ROWS],
            marks: [0; MARKS],
            edges: [0; EDGES],
        }
    }

    // Answers a step.
    fn answer_step(&mut self, rt: &impl Print, step: [u16; 4]) -> io::Result<()> {
        let mut answers = [0u16; 1];
        let told = live(
            &mut self.state,
            &mut self.opened,
            &mut self.rows,
            &mut self.marks,
            &mut self.edges,
            &step,
            &mut answers,
        );
        match told {
            Ok(()) => print_said(rt, answers[0]),
            Err(Refusal(number, _)) => print_refused(rt, number),
        }
    }

    // Answers a line. A header that is the first line gets no answer.
    pub(crate) fn answer_line(&mut self, rt: &impl Print, line: &Begun) -> io::Result<()> {
        match line.said() {
            OneLine::Step(k, t, x, s) => self.answer_step(rt, [k, t, x, s]),
            OneLine::Header if line.first => Ok(()),
            _ => print_formless(rt),
        }
    }
}
