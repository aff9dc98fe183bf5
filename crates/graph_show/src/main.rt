// Makes 65 graphs, and writes for each its first order or first shortest cycle, and up to four later orders.

#![tactic(auto)]

mod make;

use graph::{Members, ROWS, Shown, WORDS};
use std::io;

// Writes the graph's name.
fn name(rt: &impl Print, number: u64) -> io::Result<()> {
    match number {
        0 => print!(rt; "empty"),
        1 => print!(rt; "chain"),
        2 => print!(rt; "complete"),
        3 => print!(rt; "ring"),
        4 => print!(rt; "two"),
        _ => {
            let drawn = number - 4;
            print!(rt; "r{drawn}")
        }
    }
}

// Writes the members, and ends the line.
fn list(rt: &impl Print, shown: Members) -> io::Result<()> {
    for v in shown.as_slice() {
        print!(rt; " {v}")?;
    }
    println!(rt)
}

// Writes the next order after the given one, and answers it.
fn after(
    rt: &impl Print,
    m: &[u64; ROWS],
    part: [u64; WORDS],
    given: &[u16],
) -> io::Result<Option<Members>> {
    if !graph::keeps(m, part, given) {
        println!(rt; "not an order")?;
        return Ok(None);
    }
    let next = graph::next(m, part, given);
    match next {
        Some(members) => {
            print!(rt; "next")?;
            list(rt, members)?;
        }
        None => println!(rt; "next none")?,
    }
    Ok(next)
}

// Writes up to four later orders.
fn nexts(rt: &impl Print, m: &[u64; ROWS], part: [u64; WORDS], first: Members) -> io::Result<()> {
    let mut last = Some(first);
    for _ in 0..4 {
        if let Some(given) = last {
            last = after(rt, m, part, given.as_slice())?;
        }
    }
    Ok(())
}

// Writes the lines of one graph.
fn show(rt: &impl Print, number: u64) -> io::Result<()> {
    let marks = make::parts(number);
    let part = marks.part;
    let mut m = [0u64; ROWS];
    make::edges(&mut m, number, marks.state);
    name(rt, number)?;
    match graph::sort(&m, part) {
        Shown::Order(order) => {
            print!(rt; " order")?;
            list(rt, order)?;
            nexts(rt, &m, part, order)
        }
        Shown::Cycle(cycle) => {
            print!(rt; " cycle")?;
            list(rt, cycle)
        }
    }
}

// Shows the graphs one after another.
fn main(rt: HostRuntime) -> io::Result<()> {
    for number in 0..65 {
        show(&rt, number)?;
    }
    Ok(())
}
