// One step: its number, or what the rows and the small part of the state take of it, and its answer.
ghost use Rattle.std.specs.Prelude.{◌≡◌, List, ℕ, ◌≤◌, length};
ghost use Rattle.words.specs.Tests.{◌is◌, ◌below◌, ◌or◌, provided◌then◌else◌};
ghost use Rattle.live.specs.Kept.{places};
ghost use Rattle.live.specs.Inner.Table.{Sized, opened_entries, row_numbers, mark_words, edge_words, open_at};
ghost use Rattle.live.specs.Inner.Held.{Place};
ghost use Rattle.live.specs.Inner.Took.{range_number, FirstApplies, rows_breach, table, Settles, Took, Takes};

use crate::answers::{BREACH, CLOSED, Said};
use crate::around::{find_around, join_around};
use crate::comparing::alike;
use crate::holder::lower_bar;
use crate::noting::{note_read, note_write, put_last};
use crate::places::{free_place, give, place_of};
use crate::room::{free_row, give_back};
use crate::table::{DONE, PLACES, STATUS, UNTIL, WIDTH, WRONG, status, writes};
use bits::{any_mark, minus};
use graph::{WORDS, reaches};
use verdict::Step;

// The small part of the state, as its lent buffer has it: the answer that stands, 0 where none does; the highest number begun; and how many places there are
// to look at, since all behind them are free.
#[derive(Clone, Copy)]
pub(crate) struct Live {
    pub standing: u16,
    pub top: u16,
    pub count: usize,
}

// A step taken: the state after it, and its answer.
#[derive(Clone, Copy)]
pub(crate) struct Told {
    pub live: Live,
    pub said: Said,
}

// How many objects a step of kind k may name.
fn objects_of(k: u16) -> u16
    ensures { result ≡ (provided k is 2 or k is 3 then 64 else 1) }
{
    match k {
        Step::READ | Step::WRITE => 64,
        _ => 1,
    }
}

// The first of 3 to 6 that applies to a step.
fn range_number(k: u16, t: u16, x: u16, s: u16) -> Option<u16>
    ensures { FirstApplies k t x s result }
{
    if k < Step::BEGIN {
        return Some(3);
    }
    if Step::ABORT < k {
        return Some(3);
    }
    if t < 1 {
        return Some(4);
    }
    if objects_of(k) <= x {
        return Some(5);
    }
    if s == 0 {
        return None;
    }
    if k == Step::READ {
        return None;
    }
    Some(6)
}

// Whether a commit at place p is a breach: a wrong read, or another wrote since what it writes.
fn breaches(rows: &[u16], marks: &[u64], p: usize) -> bool
    requires { (length rows.now ≡ row_numbers) × (length marks.now ≡ mark_words) × (1 ≤ p) × (p ≤ 128) }
    ensures { result ≡ rows_breach rows.now marks.now p }
{
    if status(rows, p) == WRONG {
        return true;
    }
    let written = writes(marks, p);
    let same = alike(rows, written, 0, p);
    any_mark(minus(written, same))
}

// Keeps a commit at place p of transaction t: the edges around it, the last writers, and that it is open no more. Until now `top` is the highest number
// begun.
fn settle(
    opened: &mut [u16],
    rows: &mut [u16],
    marks: &[u64],
    edges: &mut [u64],
    before: [u64; WORDS],
    after: [u64; WORDS],
    p: usize,
    t: u16,
    top: u16,
    n: usize,
)
    requires { (length opened.old ≡ opened_entries) × (length rows.old ≡ row_numbers) × (length marks.now ≡ mark_words) × (length edges.old ≡ edge_words)
        × (1 ≤ p) × (p ≤ 128) × (n ≤ 128) }
    ensures { Settles (table opened.old rows.old marks.now edges.old) before after p t top n
        (table opened.new rows.new marks.now edges.new) }
{
    join_around(edges, before, after, p, n);
    put_last(rows, writes(marks, p), t);
    rows[p * WIDTH + STATUS] = DONE;
    rows[p * WIDTH + UNTIL] = top;
    lower_bar(rows, top);
    opened[p - 1] = 0;
}

impl Live {
    // This state, with an answer.
    fn told(self, said: Said) -> Told
        ensures { result ≡ record { live = self; said = said } }
    {
        Told { live: self, said }
    }

    // A begin of t that is in range.
    fn begin(self, opened: &mut [u16], rows: &mut [u16], marks: &mut [u64], t: u16) -> Told
        requires { (length opened.old ≡ opened_entries) × (length rows.old ≡ row_numbers) × (length marks.old ≡ mark_words) × (1 ≤ t) × (self.count ≤ places) }
        ensures { (edges : List ℕ) (k x s : ℕ) → length edges ≡ edge_words → k ≡ 1 → 0 ≡ range_number k t x s
            → Took self (table opened.old rows.old marks.old edges) k t x s result
            (table opened.new rows.new marks.new edges) }
    {
        if t <= self.top {
            return self.told(Said::Refused(7));
        }
        let n = self.count;
        let p = free_place(rows, n);
        if PLACES < p {
            return self.told(Said::Refused(18));
        }
        give(opened, rows, marks, p, t);
        let live = Live {
            standing: self.standing,
            top: t,
            count: n.max(p),
        };
        live.told(Said::Taken)
    }

    // A commit of t at its place p.
    fn commit(
        self,
        opened: &mut [u16],
        rows: &mut [u16],
        marks: &[u64],
        edges: &mut [u64],
        p: usize,
        t: u16,
    ) -> Told
        requires { Sized (table opened.old rows.old marks.now edges.old) × (1 ≤ t) × (self.count ≤ places) × Place self.count p × (open_at opened.old p ≡ t) }
        ensures { (k x s : ℕ) → k ≡ 4 → 0 ≡ range_number k t x s
            → Took self (table opened.old rows.old marks.now edges.old) k t x s result
            (table opened.new rows.new marks.now edges.new) }
    {
        let n = self.count;
        if breaches(rows, marks, p) {
            let live = Live {
                standing: BREACH,
                ..self
            };
            return live.told(Said::Breach);
        }
        let found = find_around(rows, marks, p, n);
        let before = found.before;
        let after = found.after;
        if reaches(edges, after, before) {
            let live = Live {
                standing: CLOSED,
                ..self
            };
            return live.told(Said::CycleClosed);
        }
        settle(opened, rows, marks, edges, before, after, p, t, self.top, n);
        let live = Live {
            count: give_back(opened, rows, edges, n),
            ..self
        };
        live.told(Said::Yes)
    }

    // An abort at place p: its transaction is forgotten at once.
    fn abort(self, opened: &mut [u16], rows: &mut [u16], edges: &mut [u64], p: usize) -> Told
        requires { (length opened.old ≡ opened_entries) × (length rows.old ≡ row_numbers) × (length edges.old ≡ edge_words) × (self.count ≤ places) × Place self.count p }
        ensures { (marks : List ℕ) (k t x s : ℕ) → length marks ≡ mark_words → 1 ≤ t → open_at opened.old p ≡ t → k ≡ 5 → 0 ≡ range_number k t x s
            → Took self (table opened.old rows.old marks edges.old) k t x s result
            (table opened.new rows.new marks edges.new) }
    {
        opened[p - 1] = 0;
        free_row(rows, p);
        let live = Live {
            count: give_back(opened, rows, edges, self.count),
            ..self
        };
        live.told(Said::Taken)
    }

    // A step in range of the open transaction t at its place p, which is no begin.
    fn inside(
        self,
        opened: &mut [u16],
        rows: &mut [u16],
        marks: &mut [u64],
        edges: &mut [u64],
        p: usize,
        k: u16,
        t: u16,
        x: u16,
        s: u16,
    ) -> Told
        requires { Sized (table opened.old rows.old marks.old edges.old) × (1 ≤ t) × (self.count ≤ places) × Place self.count p × (open_at opened.old p ≡ t)
            × (0 ≡ range_number k t x s) × (k ≡ 1 → ⊥) }
        ensures { Took self (table opened.old rows.old marks.old edges.old) k t x s result
            (table opened.new rows.new marks.new edges.new) }
    {
        if k == Step::READ {
            note_read(rows, marks, p, t, x as usize, s);
            return self.told(Said::Taken);
        }
        if k == Step::WRITE {
            note_write(marks, p, x as usize);
            return self.told(Said::Taken);
        }
        if k == Step::ABORT {
            return self.abort(opened, rows, edges, p);
        }
        self.commit(opened, rows, marks, edges, p, t)
    }

    // Takes one step: the state after it, and its answer. An answer that stands is given to every later step.
    pub(crate) fn take(
        self,
        opened: &mut [u16],
        rows: &mut [u16],
        marks: &mut [u64],
        edges: &mut [u64],
        k: u16,
        t: u16,
        x: u16,
        s: u16,
    ) -> Told
        requires { Sized (table opened.old rows.old marks.old edges.old) × (self.count ≤ places) }
        ensures { Takes self (table opened.old rows.old marks.old edges.old) k t x s result
            (table opened.new rows.new marks.new edges.new) }
    {
        if self.standing == BREACH {
            return self.told(Said::Breach);
        }
        if self.standing == CLOSED {
            return self.told(Said::CycleClosed);
        }
        if let Some(number) = range_number(k, t, x, s) {
            return self.told(Said::Refused(number));
        }
        if k == Step::BEGIN {
            return self.begin(opened, rows, marks, t);
        }
        match place_of(opened, self.count, t) {
            None => self.told(Said::Refused(8)),
            Some(p) => self.inside(opened, rows, marks, edges, p, k, t, x, s),
        }
    }
}
