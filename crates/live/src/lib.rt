// The live judge: it takes a log in parts, down to a single step, and answers each step as 01's verdicts over the log so far would.
#![tactic(auto)]

mod answers;
mod around;
mod comparing;
mod holder;
mod noting;
mod part;
mod places;
mod room;
mod step;
mod table;

ghost use Rattle.std.specs.Prelude.{◌≡◌};
ghost use Rattle.words.specs.Tests.{◌upto◌, provided◌then◌else◌};
ghost use Rattle.live.specs.Kept.{places};
ghost use Rattle.live.specs.LiveCall.{buffers, call_refusal, LiveCall};

pub use answers::{BREACH, CLOSED, Said, TAKEN, YES};
use verdict::answers::Refusal;

// How many entries the lent buffers have that hold the state.
pub const STATE: usize = 3;

pub const OPENED: usize = 256;

pub const ROWS: usize = 8643;

pub const MARKS: usize = 256;

pub const EDGES: usize = 256;

// 1 or 12, where one of them applies to a call.
fn admit(
    state: &[u16],
    opened: &[u16],
    rows: &[u16],
    marks: &[u64],
    edges: &[u64],
    part: &[u16],
    answers: &[u16],
) -> Result<(), Refusal>
    ensures { result ≡ call_refusal (buffers state.now opened.now rows.now marks.now edges.now) part.now answers.now }
{
    if part.len() % 4 != 0 {
        return Err(Refusal(1, 0));
    }
    if state.len() != STATE {
        return Err(Refusal(12, 0));
    }
    if opened.len() != OPENED {
        return Err(Refusal(12, 0));
    }
    if rows.len() != ROWS {
        return Err(Refusal(12, 0));
    }
    if marks.len() != MARKS {
        return Err(Refusal(12, 0));
    }
    if edges.len() != EDGES {
        return Err(Refusal(12, 0));
    }
    if answers.len() != part.len() / 4 {
        return Err(Refusal(12, 0));
    }
    Ok(())
}

// How many places there are to look at, as the state says it; never more than there are.
fn places_used(count: u16) -> usize
    ensures { result ≡ (provided count upto places then count else places) }
{
    if count <= 128 {
        return count as usize;
    }
    table::PLACES
}

// Takes a part of a log, in buffers that hold the state: all zero at first, and then as the last call left them. Each step of the part gets its answer.
pub fn live(
    state: &mut [u16],
    opened: &mut [u16],
    rows: &mut [u16],
    marks: &mut [u64],
    edges: &mut [u64],
    part: &[u16],
    answers: &mut [u16],
) -> Result<(), Refusal>
    ensures { LiveCall (buffers state.old opened.old rows.old marks.old edges.old) part.now answers.old result
        (buffers state.new opened.new rows.new marks.new edges.new) answers.new }
{
    admit(state, opened, rows, marks, edges, part, answers)?;
    let before = step::Live {
        standing: state[0],
        top: state[1],
        count: places_used(state[2]),
    };
    let after = part::take_part(before, opened, rows, marks, edges, part, answers);
    state[0] = after.standing;
    state[1] = after.top;
    state[2] = after.count as u16;
    Ok(())
}
