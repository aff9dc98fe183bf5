// What a step that is no commit notes in the row of its transaction, and what a commit leaves for those that begin after it.
ghost use Rattle.std.specs.Prelude.{◌≡◌, ◌≤◌, ◌<◌, ◌-◌, ◌*◌, length, set};
ghost use Rattle.bits.specs.Word.{more};
ghost use Rattle.live.specs.Inner.Table.{row_numbers, mark_words, writes_at};
ghost use Rattle.live.specs.Inner.Noting.{NotesRead, PutsLast, noted_status};

use crate::table::{SEES, STATUS, WIDTH, WRONG, reads, seen, writes};
use bits::{EachMark, has_mark, with_mark};

// Place p writes x.
pub(crate) fn note_write(marks: &mut [u64], p: usize, x: usize)
    requires { (length marks.old ≡ mark_words) × (1 ≤ p) × (p ≤ 128) × (x < 64) }
    ensures { marks.new ≡ set marks.old ((p - 1) * 2) (more (writes_at marks.old p) x) }
{
    let before = writes(marks, p);
    marks[(p - 1) * 2] = with_mark(before, x);
}

// A source that is not the one wanted is noted in the status of place p.
fn note_source(rows: &mut [u16], p: usize, s: u16, wanted: u16)
    requires { (length rows.old ≡ row_numbers) × (p ≤ 128) }
    ensures { rows.new ≡ noted_status rows.old p s wanted }
{
    if s == wanted {
        return;
    }
    rows[p * WIDTH + STATUS] = WRONG;
}

// Place p, of transaction t, reads x from s.
pub(crate) fn note_read(rows: &mut [u16], marks: &mut [u64], p: usize, t: u16, x: usize, s: u16)
    requires { (length rows.old ≡ row_numbers) × (length marks.old ≡ mark_words) × (1 ≤ p) × (p ≤ 128) × (x < 64) }
    ensures { NotesRead rows.old marks.old p t x s rows.new marks.new }
{
    if has_mark(writes(marks, p), x) {
        note_source(rows, p, s, t);
        return;
    }
    let before = reads(marks, p);
    marks[(p - 1) * 2 + 1] = with_mark(before, x);
    let wanted = seen(rows, p, x);
    note_source(rows, p, s, wanted);
}

// From now on t is the last writer of the objects that are marked.
pub(crate) fn put_last(rows: &mut [u16], marks: u64, t: u16)
    requires { length rows.old ≡ row_numbers }
    ensures { PutsLast rows.old marks t rows.new }
{
    for x in EachMark(marks) {
        rows[SEES + x] = t;
    }
}
