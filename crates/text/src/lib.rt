// The text reader, the writer and the report.
#![tactic(auto)]

mod clear;
mod decimal;
mod line;
mod number;
mod one_line;
mod put;
mod ready;
mod report_line;
mod reports;
mod writer;

ghost use Rattle.std.specs.Prelude.{◌≡◌, ◌++◌, ◌≤◌, length, drop};
ghost use Rattle.verdict.specs.Limits.{most_steps};
ghost use Rattle.text.specs.Line.{header};
ghost use Rattle.text.specs.Reading.{Reading};
ghost use Rattle.text.specs.ReadCall.{step_entries, ReadCall};
ghost use Rattle.text.specs.Inner.ReadsCall.{ReadsCall};

use crate::line::pass;
use crate::number::item_at;
pub use one_line::read_line;
pub use reports::report;
use verdict::Log;
use verdict::answers::Refusal;
pub use writer::write;

// A text, by how many bytes it has.
#[derive(Clone, Copy)]
pub struct Text {
    pub length: usize,
}

impl Text {
    pub const LIMIT: usize = 33803;

    // How many bytes the longest line has.
    pub const LINE: usize = 40;

    // How many bytes the buffer has into which a text is written.
    pub const WRITTEN: usize = 33803;

    // How many bytes the buffer for the report of a text has.
    pub const REPORT: usize = 4096;
}

// What a line by itself says: a step by its kind, transaction, object and source; how many steps follow; or nothing that is in form.
#[derive(Clone, Copy)]
pub enum OneLine {
    Step(u16, u16, u16, u16),
    Header,
    Other,
}

// Reads the text's steps into the buffer, and answers how many they are. A refusal leaves the buffer as it was.
pub fn read(text: &[u8], steps: &mut [u16]) -> Result<usize, Refusal>
    ensures { ReadCall text.now steps.old result steps.new }
{
    if steps.len() != 4 * Log::LIMIT {
        return Err(Refusal(12, 0));
    }
    if Text::LIMIT < text.len() {
        return Err(Refusal(15, 0));
    }
    read_header(text, steps)
}

// Reads a text from its header on.
fn read_header(text: &[u8], steps: &mut [u16]) -> Result<usize, Refusal>
    requires { length steps.old ≡ step_entries }
    ensures { ReadsCall (Reading text.now) text.now steps.old result steps.new }
{
    let Some((count, at)) = item_at(text, 0, b"steps=", b'\n') else {
        return Err(Refusal(16, 0));
    };
    let n = count as usize;
    if Log::LIMIT < n {
        return Err(Refusal(2, 0));
    }
    read_steps(text, at, n, steps)
}

// Reads the n lines behind a header into a run of its own, and copies that into the buffer only where the text is in form.
fn read_steps(text: &[u8], at: usize, n: usize, steps: &mut [u16]) -> Result<usize, Refusal>
    requires { (at ≤ length text.now) × (text.now ≡ header n ++ drop at text.now) × (n ≤ most_steps) × (length steps.old ≡ step_entries) }
    ensures { ReadsCall (Reading text.now) text.now steps.old result steps.new }
{
    let mut found = [0u16; 4 * Log::LIMIT];
    match pass(text, at, n, &mut found) {
        Err(i) => Err(Refusal(16, i + 1)),
        Ok(end) => {
            if end < text.len() {
                return Err(Refusal(16, n + 1));
            }
            steps.copy_from_slice(&found);
            Ok(n)
        }
    }
}
