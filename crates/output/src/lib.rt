// Lines that programs print, each with one write where it is no longer than most are.
#![tactic(auto)]

ghost use Rattle.std.specs.Prelude.{◌≡◌, ◌≢◌, IfErr, IsErr, Err};
ghost use Rattle.std.specs.IoError.{error_kind};

use std::io::ErrorKind;
use std::{fmt, io};

// A word and numbers, a blank before each, as in `order 1 2`.
#[derive(Drop)]
struct Listing<'a> {
    word: &'a str,
    numbers: &'a [u16],
}

impl fmt::Display for Listing<'_> {
    fn fmt<W: fmt::Write>(&self, f: &mut fmt::Formatter<W>) -> fmt::Result {
        let word = self.word;
        write!(f, "{word}")?;
        for number in self.numbers {
            write!(f, " {number}")?;
        }
        Ok(())
    }
}

// Prints the line of a word and numbers.
pub fn print_numbers(rt: &impl Print, word: &str, numbers: &[u16]) -> io::Result<()> {
    rt.println(Listing { word, numbers })
}

// Prints the line of a refusal.
pub fn print_refused(rt: &impl Print, number: u16, place: usize) -> io::Result<()> {
    println!(rt; "refused={number} at={place}")
}

// How a program ends by what its printing has come to. That nobody reads its output any more is no error of the program's.
pub fn ended(printed: io::Result<()>) -> io::Result<()>
    ensures same { IfErr result (λ error. printed ≡ Err error) }
    ensures silent { IfErr result (λ error. error_kind error ≢ ErrorKind.BrokenPipe) }
    ensures told { IfErr printed (λ error. error_kind error ≢ ErrorKind.BrokenPipe → IsErr result) }
{
    match printed {
        Err(error) if error.kind() == ErrorKind::BrokenPipe => Ok(()),
        _ => printed,
    }
}
