// The program: prints every order that explains the log on standard input, or in each file named, one a line, and last `none`.
// A log that is turned away gets the line of its refusal instead.
#![tactic(auto)]

ghost use Rattle.std.specs.Prelude.{◌≡◌, ◌*◌, ◌≤◌, ◌<◌, length, IfOk, IfSome};
ghost use Rattle.verdict.specs.Limits.{order_entries};
ghost use Rattle.verdict.specs.Witness.{read_off, handed};
ghost use Rattle.verdict.specs.Next.{up_to_zero};
ghost use Rattle.verdict.proofs.Listing.{to_come};

use input::{OfLog, each_log};
use output::{ended, print_numbers, print_refused};
use std::io;
use verdict::answers::{Answer, Refusal};
use verdict::{Log, Transaction, next, version};

// The order in the first n entries of a witness, as "next" takes it.
fn read_order(witness: &[u16], n: usize) -> [u16; Transaction::COUNT]
    requires { (n ≤ order_entries) × (3 * n ≤ length witness.now) }
    ensures { result ≡ handed (read_off n witness.now) }
{
    let mut order = [0u16; Transaction::COUNT];
    // An entry is three numbers: the count says it as plainly as an iterator over them.
    for i in 0..n {
        order[i] = witness[3 * i];
    }
    order
}

// Prints the order in the first n entries of a witness, and answers it.
fn print_order(rt: &impl Print, witness: &[u16], n: usize) -> io::Result<[u16; Transaction::COUNT]>
    requires { (n ≤ order_entries) × (3 * n ≤ length witness.now) }
    ensures { IfOk result (λ order. order ≡ handed (read_off n witness.now)) }
{
    let order = read_order(witness, n);
    print_numbers(rt, "order", &order[..n])?;
    Ok(order)
}

// Prints the order after the one given, and answers it, if there is one.
fn bring(
    rt: &impl Print,
    log: &[u16],
    given: [u16; Transaction::COUNT],
    work: &mut [u8],
) -> io::Result<Option<[u16; Transaction::COUNT]>>
    ensures { IfOk result (λ brought. IfSome brought (λ order.
        to_come log.now (up_to_zero order) < to_come log.now (up_to_zero given))) }
{
    let mut witness = [0u16; Transaction::WITNESS];
    let Ok(judged) = next(log, &given, work, &mut witness) else {
        return Ok(None);
    };
    match judged {
        Answer::Order(n) => Ok(Some(print_order(rt, &witness, n)?)),
        _ => Ok(None),
    }
}

// Prints all orders after the first.
fn print_later(
    rt: &impl Print,
    log: &[u16],
    first: [u16; Transaction::COUNT],
    work: &mut [u8],
) -> io::Result<()> {
    let mut order = first;
    while let Some(next) = bring(rt, log, order, work)? {
        order = next;
    }
    Ok(())
}

// What is printed of a log: every order that explains it, and last `none`.
struct Orders;

impl OfLog for Orders {
    fn print<P: Print>(&self, rt: &P, log: &[u16]) -> io::Result<()> {
        let mut work = [0u8; Log::WORK];
        let mut witness = [0u16; Transaction::WITNESS];
        let judged = match version(log, &mut work, &mut witness) {
            Ok(judged) => judged,
            Err(Refusal(number, place)) => return print_refused(rt, number, place),
        };
        if let Answer::Order(n) = judged {
            let first = print_order(rt, &witness, n)?;
            print_later(rt, log, first, &mut work)?;
        }
        rt.write_all(b"none\n")
    }
}

fn main(rt: HostRuntime) -> io::Result<()> {
    ended(each_log(&rt, &Orders))
}
