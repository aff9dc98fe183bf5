// Room given back: a place whose transaction can go is free again, until nothing more can go.
ghost use Rattle.std.specs.Prelude.{◌≡◌, List, ℕ, suc, ◌≤◌, length};
ghost use Rattle.words.specs.Tests.{◌is◌, ◌below◌, provided◌then◌else◌};
ghost use Rattle.live.specs.Inner.Table.{opened_entries, row_numbers, edge_words};
ghost use Rattle.live.specs.Inner.Took.{table};
ghost use Rattle.live.specs.Inner.Forgetting.{LeastOpen, still_overlapped, can_go, freed, Leaves, Looks, Passes, LastUsed, Forgot, GivesBack};

use crate::holder::{is_held, watch};
use crate::table::{DONE, STATUS, WIDTH, name, status, until};
use graph::{any, lent_drop, lent_row};

// The lower of two numbers, where 0 is none.
fn lower(a: u16, b: u16) -> u16
    ensures { result ≡ (provided b is 0 then a else provided a is 0 then b else provided b below a then b else a) }
{
    if b == 0 {
        return a;
    }
    if a == 0 {
        return b;
    }
    if b < a {
        return b;
    }
    a
}

// The lowest number that is open at the first n places; 0 where none is.
fn least_open(opened: &[u16], n: usize) -> u16
    requires { (length opened.now ≡ opened_entries) × (n ≤ 128) }
    ensures { LeastOpen opened.now n result }
{
    let mut least: u16 = 0;
    for i in 0..n {
        least = lower(least, opened[i]);
    }
    least
}

// Whether the one with the lowest number open began before place p committed.
fn is_overlapped(rows: &[u16], least: u16, p: usize) -> bool
    requires { (length rows.now ≡ row_numbers) × (p ≤ 128) }
    ensures { result ≡ still_overlapped rows.now least p }
{
    if least == 0 {
        return false;
    }
    least <= until(rows, p)
}

// Whether place p can go: it committed, everyone who overlapped it has ended, and no edge leads to it.
fn may_go(rows: &[u16], edges: &[u64], least: u16, p: usize) -> bool
    requires { (length rows.now ≡ row_numbers) × (length edges.now ≡ edge_words) × (p ≤ 128) }
    ensures { result ≡ can_go rows.now edges.now least p }
{
    if status(rows, p) != DONE {
        return false;
    }
    if is_overlapped(rows, least, p) {
        return false;
    }
    if any(lent_row(edges, p)) {
        return false;
    }
    true
}

// Place p is free.
pub(crate) fn free_row(rows: &mut [u16], p: usize)
    requires { (length rows.old ≡ row_numbers) × (p ≤ 128) }
    ensures { rows.new ≡ freed rows.old p }
{
    rows[p * WIDTH] = 0;
    rows[p * WIDTH + STATUS] = 0;
}

// Takes p out of the rows of the first n places.
fn leave(edges: &mut [u64], p: usize, n: usize)
    requires { (length edges.old ≡ edge_words) × (1 ≤ p) × (p ≤ 128) × (n ≤ 128) }
    ensures { Leaves edges.old p (suc n) edges.new }
{
    for q in 1..n + 1 {
        lent_drop(edges, p, q);
    }
}

// Forgets place p where it can go: whether it did, or somebody has gone before.
fn look_at(rows: &mut [u16], edges: &mut [u64], least: u16, p: usize, n: usize, gone: bool) -> bool
    requires { (length rows.old ≡ row_numbers) × (length edges.old ≡ edge_words) × (1 ≤ p) × (p ≤ 128) × (n ≤ 128) }
    ensures { Looks rows.old edges.old p least n gone rows.new edges.new result }
{
    if !may_go(rows, edges, least, p) {
        return gone;
    }
    free_row(rows, p);
    leave(edges, p, n);
    true
}

// Looks at each of the first n places once: whether anybody has gone.
fn pass(rows: &mut [u16], edges: &mut [u64], least: u16, n: usize) -> bool
    requires { (length rows.old ≡ row_numbers) × (length edges.old ≡ edge_words) × (n ≤ 128) }
    ensures { (opened : List ℕ) → LeastOpen opened n least → Passes opened rows.old edges.old n least rows.new edges.new result }
{
    let mut gone = false;
    for p in 1..n + 1 {
        gone = look_at(rows, edges, least, p, n, gone);
    }
    gone
}

// Forgets, of the first n places, until nothing more can go.
fn forget(opened: &[u16], rows: &mut [u16], edges: &mut [u64], n: usize)
    requires { (length opened.now ≡ opened_entries) × (length rows.old ≡ row_numbers) × (length edges.old ≡ edge_words) × (n ≤ 128) }
    ensures { (marks : List ℕ) → Forgot n (table opened.now rows.old marks edges.old) (table opened.now rows.new marks edges.new) }
{
    let least = least_open(opened, n);
    let mut again = true;
    while again {
        again = pass(rows, edges, least, n);
    }
}

// The highest of the first n places that is in use; 0 where none is.
fn last_used(rows: &[u16], n: usize) -> usize
    requires { (length rows.now ≡ row_numbers) × (n ≤ 128) }
    ensures { LastUsed rows.now n result }
{
    for p in (1..n + 1).rev() {
        if name(rows, p) != 0 {
            return p;
        }
    }
    0
}

// Forgets until nothing more can go: how many places there are to look at then.
pub(crate) fn give_back(opened: &[u16], rows: &mut [u16], edges: &mut [u64], n: usize) -> usize
    requires { (length opened.now ≡ opened_entries) × (length rows.old ≡ row_numbers) × (length edges.old ≡ edge_words) × (n ≤ 128) }
    ensures { (marks : List ℕ) → GivesBack n (table opened.now rows.old marks edges.old) (table opened.now rows.new marks edges.new) result }
{
    if is_held(opened, rows, n) {
        return n;
    }
    forget(opened, rows, edges, n);
    let r = last_used(rows, n);
    watch(opened, rows, r);
    r
}
