// The entries of a witness, by value: a member of an order alone, and one of a cycle with the reason that leads on from it.
ghost use Rattle.std.specs.Prelude.{◌≡◌, ℕ, ◌≤◌, ◌<◌, length, get_or};
ghost use Rattle.verdict.specs.Limits.{transactions, witness_buffer};
ghost use Rattle.verdict.specs.Outcome.{order, cycle};
ghost use Rattle.verdict.specs.Inner.Reasons.{by_value, entry_put, numbered};

use crate::answers::{Answer, Witnessed};
use crate::limits::Transaction;

// Puts the numbers of entry i in.
fn put_entry(
    list: &mut [u16; Transaction::WITNESS],
    i: usize,
    transaction: u16,
    kind: u16,
    object: u16,
)
    requires { (length list.old ≡ witness_buffer) × (i < transactions) }
    ensures { list.new ≡ entry_put list.old i transaction kind object }
{
    let at = 3 * i;
    list[at] = transaction;
    list[at + 1] = kind;
    list[at + 2] = object;
}

// An order of these members.
pub(crate) fn an_order(members: &[u16]) -> Witnessed
    requires { length members.now ≤ transactions }
    ensures { result ≡ by_value (order members.now) }
{
    let mut list = [0u16; Transaction::WITNESS];
    for i in 0..members.len() {
        put_entry(&mut list, i, members[i], 0, 0);
    }
    Witnessed {
        answer: Answer::Order(members.len()),
        list,
    }
}

// A cycle of these members, each with the reason that its number says.
pub(crate) fn a_cycle(members: &[u16], reasons: &[u16; Transaction::TABLE]) -> Witnessed
    requires { (length members.now ≤ transactions) × ((i : ℕ) → i < length members.now → get_or members.now i 0 ≤ transactions) }
    ensures { result ≡ by_value (cycle (numbered reasons.now members.now)) }
{
    let mut list = [0u16; Transaction::WITNESS];
    for i in 0..members.len() {
        let t = members[i];
        let reason = reasons[usize::from(t)];
        put_entry(&mut list, i, t, reason % 4, reason / 4);
    }
    Witnessed {
        answer: Answer::Cycle(members.len()),
        list,
    }
}
