// A part of a log: each of its steps is taken, and its answer put into the lent buffer.
ghost use Rattle.std.specs.Prelude.{◌≡◌, ◌*◌, ◌≤◌, length};
ghost use Rattle.live.specs.Answers.{answer_number};
ghost use Rattle.live.specs.Kept.{places};
ghost use Rattle.live.specs.Inner.Table.{Sized};
ghost use Rattle.live.specs.Inner.Took.{table};
ghost use Rattle.live.specs.Inner.Parts.{TakesPart};

use crate::answers::{BREACH, CLOSED, Said, TAKEN, YES};
use crate::step::Live;

// The number that stands for an answer.
fn number_of(said: Said) -> u16
    ensures { result ≡ answer_number said }
{
    match said {
        Said::Refused(number) => number,
        Said::Taken => TAKEN,
        Said::Yes => YES,
        Said::Breach => BREACH,
        Said::CycleClosed => CLOSED,
    }
}

// Takes the steps of a part one after another: the state after them, with an answer for each.
pub(crate) fn take_part(
    live: Live,
    opened: &mut [u16],
    rows: &mut [u16],
    marks: &mut [u64],
    edges: &mut [u64],
    part: &[u16],
    answers: &mut [u16],
) -> Live
    requires { Sized (table opened.old rows.old marks.old edges.old) × (live.count ≤ places) × (length part.now ≡ 4 * length answers.old) }
    ensures { TakesPart live (table opened.old rows.old marks.old edges.old) part.now answers.old result
        (table opened.new rows.new marks.new edges.new) answers.new }
{
    let mut state = live;
    for i in 0..answers.len() {
        let a = 4 * i;
        let told = state.take(
            opened,
            rows,
            marks,
            edges,
            part[a],
            part[a + 1],
            part[a + 2],
            part[a + 3],
        );
        state = told.live;
        let said = told.said;
        answers[i] = number_of(said);
    }
    state
}
