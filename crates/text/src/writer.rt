// The writer: the text of a log, line by line.
ghost use Rattle.std.specs.Prelude.{◌≡◌, ◌≤◌, ◌+◌, ◌*◌, length};
ghost use Rattle.verdict.specs.Log.{steps};
ghost use Rattle.verdict.specs.Refusal.{log_refusal};
ghost use Rattle.verdict.specs.Answers.{Passed};
ghost use Rattle.text.specs.Line.{op};
ghost use Rattle.text.specs.Text.{lines, text_of};
ghost use Rattle.text.specs.WriteCall.{text_bytes, WriteCall};
ghost use Rattle.text.specs.Inner.Put.{Fits, Leads};
ghost use Rattle.text.specs.Inner.StepLine.{line_of, Small};
ghost use Rattle.text.specs.Inner.Ready.{ReadyDigits};

use crate::Text;
use crate::clear::clear_bytes_from;
use crate::put::{put_item, put_word};
use crate::ready::{put_low, put_small, ready_digits, ready_word};
use verdict::answers::Refusal;
use verdict::check;

// Puts the front of a step's line, by its kind.
fn put_op(out: &mut [u8], at: usize, k: u16) -> usize
    requires { at + 11 ≤ length out.old }
    ensures { Leads (op k) at out.old result out.new }
{
    let a = put_word(out, at, b"op=");
    let w = ready_word(k);
    put_low(out, a, w, 8);
    a + (w / 0x100000000000000) as usize
}

// Puts the line of step i.
fn put_line(out: &mut [u8], at: usize, digits: &[u32; 129], log: &[u16], i: usize) -> usize
    requires { (4 * i + 4 ≤ length log.now) × Small log.now i × ReadyDigits digits.now × Fits (line_of log.now i) (at + 8) out.old }
    ensures { Leads (line_of log.now i) at out.old result out.new }
{
    let n = 4 * i;
    let a = put_op(out, at, log[n]);
    let b = put_small(out, a, b"tx=", digits, log[n + 1] as usize, b' ');
    let c = put_small(out, b, b"obj=", digits, log[n + 2] as usize, b' ');
    put_small(out, c, b"from=", digits, log[n + 3] as usize, b'\n')
}

// Puts the lines of a log's steps.
fn put_lines(out: &mut [u8], at: usize, log: &[u16]) -> usize
    requires { (log_refusal log.now ≡ Passed) × Fits (lines (steps log.now) log.now) (at + 8) out.old }
    ensures { Leads (lines (steps log.now) log.now) at out.old result out.new }
{
    let digits = ready_digits();
    let mut place = at;
    for i in 0..log.len() / 4 {
        place = put_line(out, place, &digits, log, i);
    }
    place
}

// Puts the text of a well-formed log.
fn put_steps(log: &[u16], out: &mut [u8]) -> usize
    requires { (log_refusal log.now ≡ Passed) × (length out.old ≡ text_bytes) }
    ensures { Leads (text_of log.now) 0 out.old result out.new }
{
    let a = put_item(out, 0, b"steps=", log.len() / 4, b'\n');
    put_lines(out, a, log)
}

// The text of a log, put first in its buffer with zeros behind it, and its length. A refusal leaves the buffer as it was.
pub fn write(log: &[u16], out: &mut [u8]) -> Result<usize, Refusal>
    ensures { WriteCall log.now out.old result out.new }
{
    if out.len() != Text::WRITTEN {
        return Err(Refusal(12, 0));
    }
    check(log)?;
    let n = put_steps(log, out);
    clear_bytes_from(out, n);
    Ok(n)
}
