// The table of who writes the next versions, filled by one walk over those who committed.
ghost use Rattle.std.specs.Prelude.{◌≡◌, ◌+◌, ◌*◌, ◌≤◌, ◌<◌, length, get_or, replicate};
ghost use Rattle.verdict.specs.Limits.{transactions, objects};
ghost use Rattle.verdict.specs.Refusal.{log_refusal};
ghost use Rattle.verdict.specs.Log.{steps};
ghost use Rattle.verdict.specs.Inner.Checking.{CommitOrder};
ghost use Rattle.verdict.specs.Inner.NextWriters.{NextWriters, PutBefore};
ghost use Rattle.verdict.specs.Inner.WriteTable.{WriteTable};
ghost use Rattle.verdict.specs.Answers.{Passed};

use crate::limits::{Object, Transaction};

// Puts t before the writers that are to come, for each object that is marked.
fn put_before(table: &mut [u8; Transaction::PAIRS], marks: u64, t: usize)
    requires { (length table.old ≡ 129 * objects) × (1 ≤ t) × (t ≤ transactions) }
    ensures { PutBefore table.old marks t table.new }
{
    let row = t * Object::TABLE;
    for x in bits::EachMark(marks) {
        table[row + x] = table[x];
        table[x] = t as u8;
    }
}

// Fills a table of zeros, from the last to commit to the first: for the store and each writer of an object, the writer of its next version,
// or 0 where there is none. No transaction is 0, so a byte says it; an Option would make the table twice as large.
pub(crate) fn next_writers(
    log: &[u16],
    writes: &[u64; Transaction::TABLE],
    earlier: &[u16; Transaction::TABLE],
    table: &mut [u8; Transaction::PAIRS],
)
    requires { (log_refusal log.now ≡ Passed) × WriteTable log.now writes.now × CommitOrder log.now (steps log.now) earlier.now × (table.old ≡ replicate (129 * objects) 0) }
    ensures { NextWriters log.now table.new }
{
    let mut t = earlier[0];
    while t != 0 {
        let at = usize::from(t);
        put_before(table, writes[at], at);
        t = earlier[at];
    }
}

// The writer of the next version of x after v's, by the table.
pub(crate) fn next_of(next: &[u8; Transaction::PAIRS], v: u16, x: u16) -> u16
    requires { (v ≤ transactions) × (x < objects) }
    ensures { result ≡ get_or next.now (v * objects + x) 0 }
{
    let row = usize::from(v);
    let column = usize::from(x);
    u16::from(next[row * Object::TABLE + column])
}
