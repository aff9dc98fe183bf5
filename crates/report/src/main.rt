// The program: prints the report of the text on standard input, or of each file named, under a line `file=NAME`.
#![tactic(auto)]

use input::{OfText, each_text};
use output::ended;
use std::io;
use text::{Text, report};

// What is printed of a text: its report.
struct TextReport;

impl OfText for TextReport {
    fn print<P: Print>(&self, rt: &P, text: &[u8]) -> io::Result<()> {
        let mut out = [0u8; Text::REPORT];
        if let Ok(n) = report(text, &mut out) {
            rt.write_all(&out[..n])?;
        }
        Ok(())
    }
}

fn main(rt: HostRuntime) -> io::Result<()> {
    ended(each_text(&rt, &TextReport))
}
