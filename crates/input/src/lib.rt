// What a program is given: the texts and logs on standard input or in the files that its arguments name, and lists of numbers.
#![tactic(auto)]

mod named;
mod reading;

ghost use Rattle.std.specs.Prelude.{◌≤◌, length, IfSome};

use crate::reading::{read_input, read_named};
pub use named::number_of;
use output::print_refused;
use std::env::FillError;
use std::rt::{Env, Files, Runtime};
use std::{fmt, io};
use text::{Text, read};
use verdict::Log;
use verdict::answers::Refusal;

// How many bytes an argument may have: more than a path that can be opened.
pub const ARGUMENT: usize = 4096;

// What a program prints of a text.
pub trait OfText {
    fn print<P: Print>(&self, rt: &P, text: &[u8]) -> io::Result<()>;
}

// What a program prints of a log.
pub trait OfLog {
    fn print<P: Print>(&self, rt: &P, log: &[u16]) -> io::Result<()>;
}

// How many arguments there are, with the program's name.
pub fn arg_count(rt: &impl Env) -> usize {
    let mut bytes = [0u8; ARGUMENT];
    for i in 0..usize::MAX {
        if let Err(FillError::NotPresent) = rt.arg(i, &mut bytes) {
            return i;
        }
    }
    usize::MAX
}

// An argument, at the start of a lent buffer; nothing where there is no such argument, or it is too long.
pub fn argument<'a>(rt: &impl Env, i: usize, bytes: &'a mut [u8; ARGUMENT]) -> Option<&'a [u8]>
    ensures { IfSome result (λ part. length part.now ≤ length bytes.old) }
{
    let n = rt.arg(i, bytes).ok()?;
    Some(&bytes[..n])
}

// Says a line on standard error. Where that fails, nothing can be said.
pub fn say(rt: &impl Eprint, line: impl fmt::Display + Drop) {
    let _ = rt.eprintln(line);
}

// Prints of the text on standard input.
fn print_input<R: Input + Eprint + Print, T: OfText>(rt: &R, of: &T) -> io::Result<()> {
    let mut buffer = [0u8; Text::LIMIT + 1];
    match read_input(rt, &mut buffer) {
        Some(text) => of.print(rt, text),
        None => Ok(()),
    }
}

// Prints of the file that an argument names, by its text.
fn print_file<R: Env + Files + Eprint + Print, T: OfText>(
    rt: &R,
    i: usize,
    of: &T,
) -> io::Result<()> {
    let mut bytes = [0u8; ARGUMENT];
    let mut buffer = [0u8; Text::LIMIT + 1];
    match read_named(rt, i, &mut bytes, &mut buffer) {
        Some((_, text)) => of.print(rt, text),
        None => Ok(()),
    }
}

// Prints of the file that an argument names, under a line `file=NAME`.
fn print_under_name<R: Env + Files + Eprint + Print, T: OfText>(
    rt: &R,
    i: usize,
    of: &T,
) -> io::Result<()> {
    let mut bytes = [0u8; ARGUMENT];
    let mut buffer = [0u8; Text::LIMIT + 1];
    match read_named(rt, i, &mut bytes, &mut buffer) {
        Some((name, text)) => {
            println!(rt; "file={name}")?;
            of.print(rt, text)
        }
        None => Ok(()),
    }
}

// Prints of each text that a program is given: the one on standard input, or in each file named, under a line `file=NAME`.
pub fn each_text<R: Runtime, T: OfText>(rt: &R, of: &T) -> io::Result<()> {
    let count = arg_count(rt);
    if count < 2 {
        return print_input(rt, of);
    }
    for i in 1..count {
        print_under_name(rt, i, of)?;
    }
    Ok(())
}

// Prints of the log of a text. One that is turned away gets the line of its refusal instead.
fn print_log<L: OfLog>(rt: &impl Print, text: &[u8], of: &L) -> io::Result<()> {
    let mut steps = [0u16; 4 * Log::LIMIT];
    match read(text, &mut steps) {
        Ok(n) => of.print(rt, &steps[..4 * n]),
        Err(Refusal(number, place)) => print_refused(rt, number, place),
    }
}

// What a program prints of a text where it prints of its log.
#[derive(Drop)]
struct OfItsLog<'a, L> {
    of: &'a L,
}

impl<L: OfLog> OfText for OfItsLog<'_, L> {
    fn print<P: Print>(&self, rt: &P, text: &[u8]) -> io::Result<()> {
        print_log(rt, text, self.of)
    }
}

// Prints of each log that a program is given, as of each text.
pub fn each_log<R: Runtime, L: OfLog>(rt: &R, of: &L) -> io::Result<()> {
    each_text(rt, &OfItsLog { of })
}

// Prints of the log on standard input, or in the file that this argument names. A program takes no argument behind it.
pub fn one_log<R: Runtime, L: OfLog>(rt: &R, program: &str, i: usize, of: &L) -> io::Result<()> {
    let count = arg_count(rt);
    if count <= i {
        return print_input(rt, &OfItsLog { of });
    }
    if 1 < count - i {
        say(rt, format_args!("{program}: one log at a time"));
        return Ok(());
    }
    print_file(rt, i, &OfItsLog { of })
}
