// What standard input and files hold, read into a lent buffer. Where reading fails, standard error has a line.
ghost use Rattle.std.specs.Prelude.{◌≡◌, ◌≤◌, length, IfSome, IsNone, Ok};
ghost use Rattle.std.specs.Io.{ReadsAtMost, StartsWith};

use crate::{ARGUMENT, argument, say};
use std::io::Read;
use std::rt::{Env, Files};
use std::{fmt, fs, io, str};

// Says on standard error what could not be read, and why. Nothing comes of it.
fn fail<T>(
    rt: &impl Eprint,
    what: impl fmt::Display + Drop,
    why: impl fmt::Display + Drop,
) -> Option<T>
    ensures { IsNone result }
{
    say(rt, format_args!("{what}: {why}"));
    None
}

// Reads until the input ends or the buffer is full, and answers how many bytes stand at its start.
fn read_text(from: &mut impl Read, buffer: &mut [u8]) -> io::Result<usize>
    ensures { ReadsAtMost result buffer.new }
{
    let mut n = 0;
    while n < buffer.len() {
        match from.read(&mut buffer[n..])? {
            0 => break,
            more => n += more,
        }
    }
    Ok(n)
}

// The text that reading has left at the start of the buffer: as many bytes as were read, and none where it failed.
fn told<'a>(
    rt: &impl Eprint,
    what: &str,
    read: io::Result<usize>,
    buffer: &'a [u8],
) -> Option<&'a [u8]>
    requires { ReadsAtMost read buffer.now }
    ensures { IfSome result (λ text. (read ≡ Ok (length text.now)) × StartsWith buffer.now text.now) }
{
    match read {
        Ok(n) => Some(&buffer[..n]),
        Err(error) => fail(rt, what, error),
    }
}

// Reads standard input.
pub(crate) fn read_input<'a, R: Input + Eprint>(rt: &R, buffer: &'a mut [u8]) -> Option<&'a [u8]>
    ensures { IfSome result (λ text. length text.now ≤ length buffer.old) }
{
    let read = read_text(&mut rt.reader(), buffer);
    told(rt, "standard input", read, buffer)
}

// Opens the file of this name, and reads it.
fn read_opened(rt: &impl Files, name: &str, buffer: &mut [u8]) -> io::Result<usize>
    ensures { ReadsAtMost result buffer.new }
{
    let mut file = fs::open(rt, name)?;
    read_text(&mut file, buffer)
}

// Reads the file of this name.
fn read_file<'a, R: Files + Eprint>(rt: &R, name: &str, buffer: &'a mut [u8]) -> Option<&'a [u8]>
    ensures { IfSome result (λ text. length text.now ≤ length buffer.old) }
{
    let read = read_opened(rt, name, buffer);
    told(rt, name, read, buffer)
}

// The file name that an argument gives.
fn file_name<'a, R: Env + Eprint>(
    rt: &R,
    i: usize,
    bytes: &'a mut [u8; ARGUMENT],
) -> Option<&'a str> {
    let Some(part) = argument(rt, i, bytes) else {
        return fail(rt, "a file name", "File name too long");
    };
    match str::from_utf8(part) {
        Ok(name) => Some(name),
        Err(error) => fail(rt, part.escape_ascii(), error),
    }
}

// Reads the file that an argument names, and answers its name and its text.
pub(crate) fn read_named<'a, R: Env + Files + Eprint>(
    rt: &R,
    i: usize,
    bytes: &'a mut [u8; ARGUMENT],
    buffer: &'a mut [u8],
) -> Option<(&'a str, &'a [u8])>
    ensures { IfSome result (λ read. length read.1.now ≤ length buffer.old) }
{
    let name = file_name(rt, i, bytes)?;
    let text = read_file(rt, name, buffer)?;
    Some((name, text))
}
