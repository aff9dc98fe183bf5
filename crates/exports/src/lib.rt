// The C face: each function answers one number, packed as the header says. It may be handed buffers of any length and any contents.
#![tactic(auto)]

mod pack;

ghost use Rattle.verdict.specs.Call.{CleanCall, SnapshotCall, ConflictCall, VersionCall, ExactCall, NextCall};
ghost use Rattle.text.specs.ReadCall.{ReadCall};
ghost use Rattle.text.specs.ReportCall.{ReportCall};
ghost use Rattle.text.specs.WriteCall.{WriteCall};
ghost use Rattle.live.specs.LiveCall.{buffers, LiveCall};
ghost use Rattle.plan.specs.AcceptsCall.{AcceptsCall};
ghost use Rattle.plan.specs.RedoCall.{RedoCall};
ghost use Rattle.exports.specs.Packed.{clean_numbers, snapshot_numbers, witness_numbers, count_numbers, live_numbers, accepts_numbers, Packs};

use crate::pack::{pack_accepts, pack_clean, pack_count, pack_live, pack_snapshot, pack_witness};

// The clean verdict.
#[unsafe(no_mangle)]
pub extern "C" fn krupovesh_clean(log: &[u16], work: &mut [u8]) -> u64
    ensures { Packs (λ a. CleanCall log.now work.old a work.new) clean_numbers result }
{
    pack_clean(verdict::clean(log, work))
}

// The snapshot verdict.
#[unsafe(no_mangle)]
pub extern "C" fn krupovesh_snapshot(log: &[u16], work: &mut [u8]) -> u64
    ensures { Packs (λ a. SnapshotCall log.now work.old a work.new) snapshot_numbers result }
{
    pack_snapshot(verdict::snapshot(log, work))
}

// The conflict verdict. The order or the cycle is put into the witness.
#[unsafe(no_mangle)]
pub extern "C" fn krupovesh_conflict(log: &[u16], work: &mut [u8], witness: &mut [u16]) -> u64
    ensures { Packs (λ a. ConflictCall log.now work.old witness.old a work.new witness.new) witness_numbers result }
{
    pack_witness(verdict::conflict(log, work, witness))
}

// The version verdict. The order or the cycle is put into the witness.
#[unsafe(no_mangle)]
pub extern "C" fn krupovesh_version(log: &[u16], work: &mut [u8], witness: &mut [u16]) -> u64
    ensures { Packs (λ a. VersionCall log.now work.old witness.old a work.new witness.new) witness_numbers result }
{
    pack_witness(verdict::version(log, work, witness))
}

// The exact verdict. The order is put into the witness.
#[unsafe(no_mangle)]
pub extern "C" fn krupovesh_exact(log: &[u16], work: &mut [u8], witness: &mut [u16]) -> u64
    ensures { Packs (λ a. ExactCall log.now work.old witness.old a work.new witness.new) witness_numbers result }
{
    pack_witness(verdict::exact(log, work, witness))
}

// "Next": the explaining order after the one handed in is put into the witness.
#[unsafe(no_mangle)]
pub extern "C" fn krupovesh_next(
    log: &[u16],
    order: &[u16],
    work: &mut [u8],
    witness: &mut [u16],
) -> u64
    ensures { Packs (λ a. NextCall log.now order.now work.old witness.old a work.new witness.new) witness_numbers result }
{
    pack_witness(verdict::next(log, order, work, witness))
}

// Reads a text's steps into the step buffer.
#[unsafe(no_mangle)]
pub extern "C" fn krupovesh_read(text: &[u8], steps: &mut [u16]) -> u64
    ensures { Packs (λ a. ReadCall text.now steps.old a steps.new) count_numbers result }
{
    pack_count(text::read(text, steps))
}

// The text of a log, put first in its buffer.
#[unsafe(no_mangle)]
pub extern "C" fn krupovesh_write(log: &[u16], out: &mut [u8]) -> u64
    ensures { Packs (λ a. WriteCall log.now out.old a out.new) count_numbers result }
{
    pack_count(text::write(log, out))
}

// The report of a text, put first in its buffer.
#[unsafe(no_mangle)]
pub extern "C" fn krupovesh_report(text: &[u8], out: &mut [u8]) -> u64
    ensures { Packs (λ a. ReportCall text.now out.old a out.new) count_numbers result }
{
    pack_count(text::report(text, out))
}

// The live judge. A part of a log is taken, and each of its steps gets an answer; the first five buffers hold the state.
#[unsafe(no_mangle)]
pub extern "C" fn krupovesh_live(
    state: &mut [u16],
    opened: &mut [u16],
    rows: &mut [u16],
    marks: &mut [u64],
    edges: &mut [u64],
    part: &[u16],
    answers: &mut [u16],
) -> u64
    ensures { Packs (λ a. LiveCall (buffers state.old opened.old rows.old marks.old edges.old) part.now answers.old a
        (buffers state.new opened.new rows.new marks.new edges.new) answers.new) live_numbers result }
{
    pack_live(live::live(state, opened, rows, marks, edges, part, answers))
}

// Whether a proposal of commits to take back will do.
#[unsafe(no_mangle)]
pub extern "C" fn krupovesh_accepts(log: &[u16], proposal: &[u16], work: &mut [u8]) -> u64
    ensures { Packs (λ a. AcceptsCall log.now proposal.now work.old a work.new) accepts_numbers result }
{
    pack_accepts(plan::accepts(log, proposal, work))
}

// Which commits to redo: they are put into the proposal.
#[unsafe(no_mangle)]
pub extern "C" fn krupovesh_redo(log: &[u16], work: &mut [u8], proposal: &mut [u16]) -> u64
    ensures { Packs (λ a. RedoCall log.now work.old proposal.old a work.new proposal.new) count_numbers result }
{
    pack_count(plan::redo(log, work, proposal))
}
