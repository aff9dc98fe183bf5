// The place of a transaction: found while it is open, and given at its begin.
ghost use Rattle.std.specs.Prelude.{◌≡◌, true, ◌≤◌, length};
ghost use Rattle.live.specs.Inner.Table.{opened_entries, row_numbers, mark_words, open_at};
ghost use Rattle.live.specs.Inner.Held.{Place};
ghost use Rattle.live.specs.Inner.Places.{FoundAt, FreePlace, CopiesRow, Given};

use crate::table::{OBJECTS, PLACES, SEES, STATUS, WIDTH, name};

// Whether t is open at place p, of the first n.
fn is_at(opened: &[u16], n: usize, t: u16, p: usize) -> bool
    requires { (length opened.now ≡ opened_entries) × (n ≤ 128) }
    ensures { result ≡ true → Place n p × (open_at opened.now p ≡ t) }
{
    if p == 0 {
        return false;
    }
    if n < p {
        return false;
    }
    opened[p - 1] == t
}

// The place of the open transaction t, of the first n, looked for from the newest on.
fn search_place(opened: &[u16], n: usize, t: u16) -> Option<usize>
    requires { (length opened.now ≡ opened_entries) × (n ≤ 128) }
    ensures { FoundAt opened.now n t result }
{
    for p in (1..n + 1).rev() {
        if opened[p - 1] == t {
            return Some(p);
        }
    }
    None
}

// The same. It is tried first where the last one with the low bits of t began.
pub(crate) fn place_of(opened: &[u16], n: usize, t: u16) -> Option<usize>
    requires { (length opened.now ≡ opened_entries) × (n ≤ 128) }
    ensures { FoundAt opened.now n t result }
{
    let low = t as usize % PLACES;
    let p = opened[PLACES + low] as usize;
    if is_at(opened, n, t, p) {
        return Some(p);
    }
    search_place(opened, n, t)
}

// The lowest of the first n places that is free; the one behind them where none is.
pub(crate) fn free_place(rows: &[u16], n: usize) -> usize
    requires { (length rows.now ≡ row_numbers) × (n ≤ 128) }
    ensures { FreePlace rows.now n result }
{
    for p in 1..n + 1 {
        if name(rows, p) == 0 {
            return p;
        }
    }
    n + 1
}

// Row p sees what row 0 sees.
fn copy_row(rows: &mut [u16], p: usize)
    requires { (length rows.old ≡ row_numbers) × (1 ≤ p) × (p ≤ 128) }
    ensures { CopiesRow rows.old p rows.new }
{
    rows.copy_within(SEES..SEES + OBJECTS, p * WIDTH + SEES);
}

// Gives place p to t, which begins.
pub(crate) fn give(opened: &mut [u16], rows: &mut [u16], marks: &mut [u64], p: usize, t: u16)
    requires { (length opened.old ≡ opened_entries) × (length rows.old ≡ row_numbers) × (length marks.old ≡ mark_words) × (1 ≤ p) × (p ≤ 128) }
    ensures { Given opened.old rows.old marks.old p t opened.new rows.new marks.new }
{
    copy_row(rows, p);
    rows[p * WIDTH] = t;
    rows[p * WIDTH + STATUS] = 0;
    marks[(p - 1) * 2] = 0;
    marks[(p - 1) * 2 + 1] = 0;
    opened[p - 1] = t;
    opened[PLACES + t as usize % PLACES] = p as u16;
}
