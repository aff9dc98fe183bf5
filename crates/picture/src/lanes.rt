// The lanes: one for each transaction that has a step, in the order of their numbers.
ghost use Rattle.std.specs.Prelude.{◌+◌, ◌≤◌};

use crate::drawing::Drawing;
use crate::steps::Steps;
use std::io;
use verdict::{Step, Transaction};

// The lane of each transaction that has one, and how many lanes there are.
#[derive(Drop)]
pub(crate) struct Lanes {
    of: [Option<u16>; Transaction::TABLE],
    pub(crate) count: u16,
}

// The transactions that have a step, by marks.
fn mark_all(steps: Steps<'_>) -> [bool; Transaction::TABLE] {
    let mut marks = [false; Transaction::TABLE];
    for i in 0..steps.count() {
        if let Some(step) = steps.at(i)
            && let Some(mark) = marks.get_mut(usize::from(step.tx))
        {
            *mark = true;
        }
    }
    marks
}

impl Lanes {
    // A lane for each transaction that has a step.
    pub(crate) fn new(steps: Steps<'_>) -> Lanes {
        let marks = mark_all(steps);
        let mut of = [None; Transaction::TABLE];
        let mut count = 0;
        for tx in 1..Transaction::TABLE {
            if marks[tx] {
                count += 1;
                of[tx] = Some(count);
            }
        }
        Lanes { of, count }
    }

    // The lane of a transaction.
    pub(crate) fn lane_of(&self, tx: u16) -> Option<u16> {
        self.of.get(usize::from(tx)).copied().flatten()
    }
}

impl Drawing<'_> {
    // Opens a lane: its number, and a line from its begin to its end, which is dashed and grey where the transaction has done nothing.
    fn open_lane(&self, rt: &impl Print, tx: u16, lane: u16) -> io::Result<()> {
        let y = self.page.down(lane);
        let x = self.page.number_across();
        let from = self.across(self.steps.last_of(Step::BEGIN, tx, 0, 0));
        let to = self.across(self.steps.end_of(tx));
        if self.steps.abort_of(tx).is_some() {
            return print!(rt;
                "<g class='lane gone' transform='translate(0,{y})'>\n<text class='number' x='{x}' dy='.35em'>{tx}</text>\n<path class='run' d='M{from} 0H{to}' stroke-dasharray='7 5'/>\n"
            );
        }
        print!(rt;
            "<g class='lane' transform='translate(0,{y})'>\n<text class='number' x='{x}' dy='.35em'>{tx}</text>\n<path class='run' d='M{from} 0H{to}'/>\n"
        )
    }

    // Prints a lane with the marks of its steps.
    fn print_lane(&self, rt: &impl Print, tx: u16, lane: u16) -> io::Result<()> {
        self.open_lane(rt, tx, lane)?;
        for i in 0..self.page.steps {
            if let Some(step) = self.steps.at(i)
                && step.tx == tx
            {
                self.page.print_mark(rt, i, step)?;
            }
        }
        rt.write_all(b"</g>\n")
    }

    // Prints the lanes.
    pub(crate) fn print_lanes(&self, rt: &impl Print) -> io::Result<()> {
        for tx in 1..=Transaction::LIMIT {
            if let Some(lane) = self.lanes.lane_of(tx) {
                self.print_lane(rt, tx, lane)?;
            }
        }
        Ok(())
    }
}
