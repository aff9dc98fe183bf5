// Who holds all that are kept: while one is open that overlapped them all, nothing can go, and that is told at once.
ghost use Rattle.std.specs.Prelude.{◌≡◌, ◌≤◌, length};
ghost use Rattle.live.specs.Inner.Table.{opened_entries, row_numbers, status_at, until_at};
ghost use Rattle.live.specs.Inner.Forgetting.{lowered, Holder, LowUntil, Watched};

use crate::table::{DONE, UNTIL, name, status, until};

// The number of row 0 is not above `top`.
pub(crate) fn lower_bar(rows: &mut [u16], top: u16)
    requires { length rows.old ≡ row_numbers }
    ensures { rows.new ≡ lowered rows.old top }
{
    if top < until(rows, 0) {
        rows[UNTIL] = top;
    }
}

// Whether the one at the place that row 0 names is open and overlapped all that are kept: then nothing can go.
pub(crate) fn is_held(opened: &[u16], rows: &[u16], n: usize) -> bool
    requires { (length opened.now ≡ opened_entries) × (length rows.now ≡ row_numbers) × (n ≤ 128) }
    ensures { Holder opened.now rows.now n result }
{
    let w = name(rows, 0) as usize;
    if w == 0 {
        return false;
    }
    if n < w {
        return false;
    }
    if opened[w - 1] == 0 {
        return false;
    }
    opened[w - 1] <= until(rows, 0)
}

// The lower of `low` and, where place p committed, its number.
fn low_with(rows: &[u16], p: usize, low: u16) -> u16
    requires { (length rows.now ≡ row_numbers) × (p ≤ 128) }
    ensures { (result ≤ low) × (status_at rows.now p ≡ 2 → result ≤ until_at rows.now p) }
{
    let own = until(rows, p);
    if status(rows, p) == DONE {
        if own < low {
            return own;
        }
    }
    low
}

// A number that no committed one of the first n places is below: the lowest of theirs.
fn lowest_until(rows: &[u16], n: usize) -> u16
    requires { (length rows.now ≡ row_numbers) × (n ≤ 128) }
    ensures { LowUntil rows.now n result }
{
    let mut low: u16 = 65535;
    for i in 1..n + 1 {
        low = low_with(rows, i, low);
    }
    low
}

// The place, of the first n, of the last who began of those that are open and not above `bar`; 0 where there is none.
fn find_holder(opened: &[u16], n: usize, bar: u16) -> u16
    requires { (length opened.now ≡ opened_entries) × (n ≤ 128) }
{
    let mut holder: u16 = 0;
    let mut highest: u16 = 0;
    for i in 0..n {
        let t = opened[i];
        if highest < t {
            if t <= bar {
                highest = t;
                holder = i as u16 + 1;
            }
        }
    }
    holder
}

// Notes in row 0 the lowest number of those that committed, and the place of who holds them.
pub(crate) fn watch(opened: &[u16], rows: &mut [u16], n: usize)
    requires { (length opened.now ≡ opened_entries) × (length rows.old ≡ row_numbers) × (n ≤ 128) }
    ensures { Watched rows.old n rows.new }
{
    let bar = lowest_until(rows, n);
    rows[0] = find_holder(opened, n, bar);
    rows[UNTIL] = bar;
}
