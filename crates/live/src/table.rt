// How the lent buffers keep the rows of the transactions: a row for each place, and row 0 for one that begins now. A free place has number 0. Of row 0,
// the first number and the last are for who holds all that are kept (holder.rt). They are plain numbers, since the C interface lends them.
ghost use Rattle.std.specs.Prelude.{◌≡◌, ◌≤◌, ◌<◌, length};
ghost use Rattle.live.specs.Inner.Table.{row_numbers, mark_words, name_at, status_at, sees_at, until_at, writes_at, reads_at};

// How many transactions are kept, and how many objects there are.
pub(crate) const PLACES: usize = 128;

pub(crate) const OBJECTS: usize = 64;

// How many numbers a row has: the transaction's number, its status, for each object what it sees, and the highest number that had begun when it committed.
pub(crate) const WIDTH: usize = OBJECTS + 3;

// Where the status stands in a row, where what is seen of object 0, and where the highest number.
pub(crate) const STATUS: usize = 1;

pub(crate) const SEES: usize = 2;

pub(crate) const UNTIL: usize = OBJECTS + 2;

// The statuses: a wrong read was seen, and committed. At first it is 0.
pub(crate) const WRONG: u16 = 1;

pub(crate) const DONE: u16 = 2;

// The number of the transaction at place p, and its status.
pub(crate) fn name(rows: &[u16], p: usize) -> u16
    requires { (length rows.now ≡ row_numbers) × (p ≤ 128) }
    ensures { result ≡ name_at rows.now p }
{
    rows[p * WIDTH]
}

pub(crate) fn status(rows: &[u16], p: usize) -> u16
    requires { (length rows.now ≡ row_numbers) × (p ≤ 128) }
    ensures { result ≡ status_at rows.now p }
{
    rows[p * WIDTH + STATUS]
}

// What row p sees of x.
pub(crate) fn seen(rows: &[u16], p: usize, x: usize) -> u16
    requires { (length rows.now ≡ row_numbers) × (p ≤ 128) × (x < 64) }
    ensures { result ≡ sees_at rows.now p x }
{
    rows[p * WIDTH + SEES + x]
}

// The highest number that had begun when place p committed.
pub(crate) fn until(rows: &[u16], p: usize) -> u16
    requires { (length rows.now ≡ row_numbers) × (p ≤ 128) }
    ensures { result ≡ until_at rows.now p }
{
    rows[p * WIDTH + UNTIL]
}

// What place p writes, and what it reads before any own write.
pub(crate) fn writes(marks: &[u64], p: usize) -> u64
    requires { (length marks.now ≡ mark_words) × (1 ≤ p) × (p ≤ 128) }
    ensures { result ≡ writes_at marks.now p }
{
    marks[(p - 1) * 2]
}

pub(crate) fn reads(marks: &[u64], p: usize) -> u64
    requires { (length marks.now ≡ mark_words) × (1 ≤ p) × (p ≤ 128) }
    ensures { result ≡ reads_at marks.now p }
{
    marks[(p - 1) * 2 + 1]
}
