// The report of a text: a line for each verdict, or the refusal alone.
ghost use Rattle.std.specs.Prelude.{◌≡◌, ◌+◌, ◌≤◌, length};
ghost use Rattle.verdict.specs.Limits.{transactions};
ghost use Rattle.verdict.specs.Refusal.{log_refusal};
ghost use Rattle.verdict.specs.Clean.{cleanness};
ghost use Rattle.verdict.specs.Snapshot.{snapshot_verdict};
ghost use Rattle.verdict.specs.Judgement.{ExactIs, Judges};
ghost use Rattle.verdict.specs.Answers.{Passed};
ghost use Rattle.text.specs.Report.{ExactLine, first_lines, LogReport, ReportOf};
ghost use Rattle.text.specs.ReportCall.{report_bytes, ReportCall};
ghost use Rattle.text.specs.Inner.Put.{Puts, PutsLine, most_exact};

use crate::clear::clear_bytes_from;
use crate::put::{put_item, put_word};
use crate::report_line::{put_answer, put_clean, put_refused, put_snapshot};
use crate::{Text, read};
use verdict::answers::{Cleanness, ExactWitnessed, Exactness, Judgement, Refusal, Snapshot};
use verdict::{Log, committed_count, judge};

// Puts the lines before those of the verdicts with a witness.
fn put_first(log: &[u16], clean: Cleanness, snapshot: Snapshot, out: &mut [u8]) -> usize
    requires { (log_refusal log.now ≡ Passed) × (clean ≡ cleanness log.now) × (snapshot ≡ snapshot_verdict transactions log.now) × (length out.old ≡ report_bytes) }
    ensures { Puts (first_lines log.now) 0 out.old result out.new }
{
    let a = put_item(out, 0, b"steps=", log.len() / 4, b'\n');
    let b = put_item(out, a, b"committed=", committed_count(log), b'\n');
    let c = put_clean(out, b, clean);
    put_snapshot(out, c, snapshot)
}

// Puts the line of the exact verdict.
fn put_exact(log: &[u16], found: ExactWitnessed, out: &mut [u8], at: usize) -> usize
    requires { (log_refusal log.now ≡ Passed) × ExactIs log.now found × (at + most_exact ≤ length out.old) }
    ensures { PutsLine most_exact (ExactLine log.now) at out.old result out.new }
{
    let exactness = found.exactness;
    let list = found.list;
    match exactness {
        Exactness::Over(_) => put_word(out, at, b"exact=over\n"),
        Exactness::Searched(answer) => put_answer(out, at, b"exact=", answer, &list),
    }
}

// Puts the lines of a well-formed log.
fn put_verdicts(log: &[u16], judgement: Judgement, out: &mut [u8]) -> usize
    requires { (log_refusal log.now ≡ Passed) × Judges log.now judgement × (length out.old ≡ report_bytes) }
    ensures { PutsLine report_bytes (LogReport log.now) 0 out.old result out.new }
{
    let clean = judgement.clean;
    let snapshot = judgement.snapshot;
    let conflict = judgement.conflict;
    let version = judgement.version;
    let exact = judgement.exact;
    let a = put_first(log, clean, snapshot, out);
    let b = put_answer(out, a, b"conflict=", conflict.answer, &conflict.list);
    let c = put_answer(out, b, b"version=", version.answer, &version.list);
    put_exact(log, exact, out, c)
}

// Puts the report of a log.
fn put_log(log: &[u16], out: &mut [u8]) -> usize
    requires { length out.old ≡ report_bytes }
    ensures { PutsLine report_bytes (LogReport log.now) 0 out.old result out.new }
{
    match judge(log) {
        Err(Refusal(number, place)) => put_refused(out, number, place),
        Ok(judgement) => put_verdicts(log, judgement, out),
    }
}

// Puts the report of a text.
fn put_text(text: &[u8], out: &mut [u8]) -> usize
    requires { length out.old ≡ report_bytes }
    ensures { PutsLine report_bytes (ReportOf text.now) 0 out.old result out.new }
{
    let mut steps = [0u16; 4 * Log::LIMIT];
    match read(text, &mut steps) {
        Err(Refusal(number, place)) => put_refused(out, number, place),
        Ok(n) => {
            let end = 4 * n;
            put_log(&steps[..end], out)
        }
    }
}

// The report of a text, put first in its buffer with zeros behind it, and its length. A refusal, which is always 12, changes nothing.
pub fn report(text: &[u8], out: &mut [u8]) -> Result<usize, Refusal>
    ensures { ReportCall text.now out.old result out.new }
{
    if out.len() != Text::REPORT {
        return Err(Refusal(12, 0));
    }
    let n = put_text(text, out);
    clear_bytes_from(out, n);
    Ok(n)
}
