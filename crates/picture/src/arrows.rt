// The arrows of a cycle: from each member to the following one, with its reason.
use crate::drawing::Drawing;
use std::{fmt, io};
use verdict::{RW, Step, WR, WW};

// Why one transaction must come before another: the kind of the reason, and its object, as in `rw:0`.
#[derive(Clone, Copy)]
pub(crate) struct Reason {
    pub(crate) first: u16,
    then: u16,
    kind: u16,
    obj: u16,
}

impl fmt::Display for Reason {
    fn fmt<W: fmt::Write>(&self, f: &mut fmt::Formatter<W>) -> fmt::Result {
        let obj = self.obj;
        match self.kind {
            WW => write!(f, "ww:{obj}"),
            WR => write!(f, "wr:{obj}"),
            _ => write!(f, "rw:{obj}"),
        }
    }
}

// An arrow, by its ends on the page.
#[derive(Clone, Copy)]
struct Arrow {
    x1: u32,
    y1: u32,
    x2: u32,
    y2: u32,
}

// A place on the way from a to b, at a sixth of it.
fn sixth(a: u32, b: u32) -> u32 {
    ((5 * u64::from(a) + u64::from(b)) / 6) as u32
}

// A place on the way from a to b, at a quarter of it.
fn quarter(a: u32, b: u32) -> u32 {
    ((3 * u64::from(a) + u64::from(b)) / 4) as u32
}

// A place on the way from a to b, at three eighths of it.
fn past_third(a: u32, b: u32) -> u32 {
    ((5 * u64::from(a) + 3 * u64::from(b)) / 8) as u32
}

// A place on the way from a to b, at four ninths of it.
fn before_half(a: u32, b: u32) -> u32 {
    ((5 * u64::from(a) + 4 * u64::from(b)) / 9) as u32
}

impl Arrow {
    // Prints its line. It leaves its lane straight down or up, and comes to the other one so, too.
    fn print(self, rt: &impl Print) -> io::Result<()> {
        let Arrow { x1, y1, x2, y2 } = self;
        let near = quarter(y1, y2);
        let far = quarter(y2, y1);
        print!(rt;
            "<path class='arrow' marker-end='url(#head)' d='M{x1} {y1}C{x1} {far} {x2} {near} {x2} {y2}'/>\n"
        )
    }
}

impl Drawing<'_> {
    // The reason of member i of a cycle. Behind the last member comes the first.
    pub(crate) fn reason(&self, i: u16) -> Reason {
        let a = 3 * usize::from(i);
        let b = if a + 3 < 3 * usize::from(self.page.cycle()) {
            a + 3
        } else {
            0
        };
        Reason {
            first: self.entry(a),
            then: self.entry(b),
            kind: self.entry(a + 1),
            obj: self.entry(a + 2),
        }
    }

    // The step of the first transaction that a reason speaks of: its write of the object, or its read of the version that the second replaced.
    fn first_step(&self, reason: Reason) -> Option<u16> {
        let Reason {
            first,
            then,
            kind,
            obj,
        } = reason;
        if kind == RW {
            let writer = self.steps.version_before(obj, then);
            return self.steps.last_of(Step::READ, first, obj, writer);
        }
        self.steps.last_of(Step::WRITE, first, obj, 0)
    }

    // The step of the second transaction: its read of what the first wrote, or its write of the object.
    fn second_step(&self, reason: Reason) -> Option<u16> {
        let Reason {
            first,
            then,
            kind,
            obj,
        } = reason;
        if kind == WR {
            return self.steps.last_of(Step::READ, then, obj, first);
        }
        self.steps.last_of(Step::WRITE, then, obj, 0)
    }

    // The arrow of a reason.
    fn arrow(&self, reason: Reason) -> Arrow {
        Arrow {
            x1: self.across(self.first_step(reason)),
            y1: self.down(reason.first),
            x2: self.across(self.second_step(reason)),
            y2: self.down(reason.then),
        }
    }

    // Opens the sign that bears a reason.
    fn open_sign(&self, rt: &impl Print, x: u32, y: u32) -> io::Result<()> {
        if self.page.labelled() {
            return print!(rt; "<g class='reason' transform='translate({x},{y})'>");
        }
        if self.page.few_arrows() {
            return print!(rt; "<g class='reason' transform='translate({x},{y}) scale(1.2)'>");
        }
        print!(rt; "<g class='reason' transform='translate({x},{y}) scale(.6)'>")
    }

    // Opens it on the line of an arrow, nearer to its first end; where lanes are narrow not so near, since the source of a read stands there.
    fn open_reason(&self, rt: &impl Print, arrow: Arrow) -> io::Result<()> {
        let Arrow { x1, y1, x2, y2 } = arrow;
        if self.page.lanes <= 6 {
            return self.open_sign(rt, sixth(x1, x2), past_third(y1, y2));
        }
        self.open_sign(rt, past_third(x1, x2), before_half(y1, y2))
    }

    // Prints the lines of a cycle's arrows.
    pub(crate) fn print_arrows(&self, rt: &impl Print) -> io::Result<()> {
        for i in 0..self.page.cycle() {
            self.arrow(self.reason(i)).print(rt)?;
        }
        Ok(())
    }

    // Prints the reasons of a cycle's arrows.
    pub(crate) fn print_reasons(&self, rt: &impl Print) -> io::Result<()> {
        for i in 0..self.page.cycle() {
            let reason = self.reason(i);
            self.open_reason(rt, self.arrow(reason))?;
            print!(rt;
                "<rect x='-23' y='-10' width='46' height='20' rx='4'/><text y='5'>{reason}</text></g>\n"
            )?;
        }
        Ok(())
    }
}
