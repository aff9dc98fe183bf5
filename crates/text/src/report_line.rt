// The lines of a report, each from the answer that it tells.
ghost use Rattle.std.specs.Prelude.{◌++◌, ◌*◌, ◌≤◌, length};
ghost use Rattle.verdict.specs.Clean.{fault_step};
ghost use Rattle.verdict.specs.Witness.{entries_in};
ghost use Rattle.text.specs.Bytes.{bytes, line_end};
ghost use Rattle.text.specs.Decimal.{decimal};
ghost use Rattle.text.specs.Line.{item};
ghost use Rattle.text.specs.ReportLine.{refused_line, clean_line, wants, snapshot_line, reason, spelled, spelled_all};
ghost use Rattle.text.specs.Inner.Put.{Fits, Puts};
ghost use Rattle.text.specs.Inner.Told.{told, told_entries};

use crate::put::{put_byte, put_item, put_number, put_word};
use verdict::answers::{Answer, Cleanness, Fault, Snapshot, Writer};
use verdict::fault_step;

// Puts the line of a refusal.
pub(crate) fn put_refused(out: &mut [u8], number: u16, place: usize) -> usize
    requires { Fits (refused_line number place) 0 out.old }
    ensures { Puts (refused_line number place) 0 out.old result out.new }
{
    let a = put_item(out, 0, b"refused=", number as usize, b' ');
    put_item(out, a, b"at=", place, b'\n')
}

// Puts the line of the clean verdict.
pub(crate) fn put_clean(out: &mut [u8], at: usize, clean: Cleanness) -> usize
    requires { Fits (clean_line clean) at out.old }
    ensures { Puts (clean_line clean) at out.old result out.new }
{
    match clean {
        Cleanness::Yes => put_word(out, at, b"clean=yes\n"),
        Cleanness::Unclean(fault) => match fault {
            Fault::Own(k) => put_item(out, at, b"clean=own at ", k, b'\n'),
            Fault::Aborted(k) => put_item(out, at, b"clean=aborted at ", k, b'\n'),
            Fault::Unfinal(k) => put_item(out, at, b"clean=unfinal at ", k, b'\n'),
        },
    }
}

// Puts what a wrong read should have found, which ends its line.
fn put_wants(out: &mut [u8], at: usize, writer: Writer) -> usize
    requires { Fits (wants writer) at out.old }
    ensures { Puts (wants writer) at out.old result out.new }
{
    match writer {
        Writer::Store => put_word(out, at, b"wants 0\n"),
        Writer::Committed(t, s) => {
            let a = put_item(out, at, b"wants ", t as usize, b' ');
            put_item(out, a, b"from ", s, b'\n')
        }
        Writer::Reader(t) => put_item(out, at, b"wants ", t as usize, b'\n'),
    }
}

// Puts the line of the snapshot verdict.
pub(crate) fn put_snapshot(out: &mut [u8], at: usize, snapshot: Snapshot) -> usize
    requires { Fits (snapshot_line snapshot) at out.old }
    ensures { Puts (snapshot_line snapshot) at out.old result out.new }
{
    match snapshot {
        Snapshot::Yes => put_word(out, at, b"snapshot=yes\n"),
        Snapshot::Read(k, writer) => {
            let a = put_item(out, at, b"snapshot=read at ", k, b' ');
            put_wants(out, a, writer)
        }
        Snapshot::Write(k, t) => {
            let a = put_item(out, at, b"snapshot=write at ", k, b' ');
            put_item(out, a, b"with ", t as usize, b'\n')
        }
    }
}

// Puts the reason behind a member of a cycle, by the numbers that a witness has for its kind. A member of an order has none.
fn put_reason(out: &mut [u8], at: usize, kind: u16, x: u16) -> usize
    requires { Fits (reason kind x) at out.old }
    ensures { Puts (reason kind x) at out.old result out.new }
{
    if kind == verdict::WW {
        return put_number(out, at, b" ww:", x as usize);
    }
    if kind == verdict::WR {
        return put_number(out, at, b" wr:", x as usize);
    }
    if kind == verdict::RW {
        return put_number(out, at, b" rw:", x as usize);
    }
    at
}

// Puts a member, a blank before it, and its reason behind it.
fn put_member(out: &mut [u8], at: usize, transaction: u16, kind: u16, x: u16) -> usize
    requires { Fits (spelled (record { transaction = transaction; kind = kind; object = x })) at out.old }
    ensures { Puts (spelled (record { transaction = transaction; kind = kind; object = x })) at out.old result out.new }
{
    let a = put_number(out, at, b" ", transaction as usize);
    put_reason(out, a, kind, x)
}

// Puts the members of the first n entries of a list.
fn put_entries(out: &mut [u8], at: usize, list: &[u16], n: usize) -> usize
    requires { (3 * n ≤ length list.now) × Fits (spelled_all (entries_in n list.now)) at out.old }
    ensures { Puts (spelled_all (entries_in n list.now)) at out.old result out.new }
{
    let mut place = at;
    for i in 0..n {
        let k = 3 * i;
        place = put_member(out, place, list[k], list[k + 1], list[k + 2]);
    }
    place
}

// Puts a word, and behind it the members of an order or a cycle.
fn put_members(out: &mut [u8], at: usize, word: &[u8], list: &[u16], n: usize) -> usize
    requires { (3 * n ≤ length list.now) × Fits (word.now ++ spelled_all (entries_in n list.now)) at out.old }
    ensures { Puts (word.now ++ spelled_all (entries_in n list.now)) at out.old result out.new }
{
    let a = put_word(out, at, word);
    put_entries(out, a, list, n)
}

// Puts an unclean answer, which tells the step of its fault.
fn put_unclean(out: &mut [u8], at: usize, fault: Fault) -> usize
    requires { Fits (bytes "unclean at " ++ decimal (fault_step fault)) at out.old }
    ensures { Puts (bytes "unclean at " ++ decimal (fault_step fault)) at out.old result out.new }
{
    put_number(out, at, b"unclean at ", fault_step(fault))
}

// Puts what stands behind the key of a verdict with a witness.
fn put_value(out: &mut [u8], at: usize, answer: Answer, list: &[u16]) -> usize
    requires { (3 * told_entries answer ≤ length list.now) × Fits (told answer list.now) at out.old }
    ensures { Puts (told answer list.now) at out.old result out.new }
{
    match answer {
        Answer::Order(n) => put_members(out, at, b"order", list, n),
        Answer::Cycle(n) => put_members(out, at, b"cycle", list, n),
        Answer::None => put_word(out, at, b"none"),
        Answer::Unclean(fault) => put_unclean(out, at, fault),
    }
}

// Puts the line of a verdict with a witness. It is inlined, so that the length of the key is known where it is copied: else the archive
// would ask its caller for `memmove`.
#[inline(always)]
pub(crate) fn put_answer(
    out: &mut [u8],
    at: usize,
    key: &[u8],
    answer: Answer,
    list: &[u16],
) -> usize
    requires { (3 * told_entries answer ≤ length list.now) × Fits (item key.now (told answer list.now) line_end) at out.old }
    ensures { Puts (item key.now (told answer list.now) line_end) at out.old result out.new }
{
    let a = put_word(out, at, key);
    let b = put_value(out, a, answer, list);
    put_byte(out, b, b'\n')
}
