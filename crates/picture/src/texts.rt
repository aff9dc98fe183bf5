// The lines of text: the title, the numbers of the steps, the order, and the ring of a fault.
ghost use Rattle.std.specs.Prelude.{◌≤◌};

use crate::drawing::Drawing;
use crate::page::{Page, Shown};
use std::io;

impl Page {
    // Ends a line of text, and begins line k.
    fn break_line(self, rt: &impl Print, k: u32) -> io::Result<()>
        requires { k ≤ 100000 }
    {
        let y = self.line(k);
        print!(rt; "</text>\n<text class='words' x='20' y='{y}'>")
    }

    // Prints the title of an order.
    fn print_order_title(self, rt: &impl Print) -> io::Result<()> {
        let y = self.line(1);
        print!(rt;
            "<title>version=order</title>\n<text class='words' x='20' y='{y}'>version=order</text>\n"
        )
    }

    // Prints the title of an unclean log, by the step of its fault.
    fn print_unclean_title(self, rt: &impl Print, fault: u16) -> io::Result<()> {
        let y = self.line(1);
        print!(rt;
            "<title>version=unclean at {fault}</title>\n<text class='words' x='20' y='{y}'>version=unclean at {fault}</text>\n"
        )
    }

    // Prints the number of a step above the lanes, and a thin line down from it.
    fn print_number(self, rt: &impl Print, i: u16) -> io::Result<()> {
        let x = self.across(i);
        let y = self.numbers_down();
        let top = y + 6;
        let end = self.down(self.lanes) + 30;
        print!(rt;
            "<text class='step' x='{x}' y='{y}'>{i}</text><path class='guide' d='M{x} {top}V{end}'/>\n"
        )
    }

    // Prints the numbers of the steps: all of them, or each fiftieth where there are many.
    pub(crate) fn print_numbers(self, rt: &impl Print) -> io::Result<()> {
        for i in 0..self.steps {
            if self.labelled() || i % 50 == 0 {
                self.print_number(rt, i)?;
            }
        }
        Ok(())
    }

    // Prints a ring around the step of a fault, on the lane that stands so far down.
    pub(crate) fn print_fault(self, rt: &impl Print, i: u16, y: u32) -> io::Result<()> {
        let x = self.across(i);
        if self.labelled() {
            print!(rt; "<g class='fault' transform='translate({x},{y})'>")?;
        } else {
            print!(rt; "<g class='fault' transform='translate({x},{y}) scale(2)'>")?;
        }
        print!(rt; "<circle r='11'/><text y='-26'>unclean at {i}</text></g>\n")
    }
}

impl Drawing<'_> {
    // Prints member i of a cycle with its reason.
    fn print_member(&self, rt: &impl Print, i: u16) -> io::Result<()> {
        let reason = self.reason(i);
        let first = reason.first;
        let line = self.page.title_line(i);
        if 0 < i && self.page.title_line(i - 1) < line {
            self.page.break_line(rt, line + 1)?;
        }
        print!(rt; " {first} {reason}")
    }

    // Prints the title of a cycle.
    fn print_cycle_title(&self, rt: &impl Print) -> io::Result<()> {
        let y = self.page.line(1);
        print!(rt;
            "<title>version=cycle</title>\n<text class='words' x='20' y='{y}'>version=cycle"
        )?;
        for i in 0..self.page.cycle() {
            self.print_member(rt, i)?;
        }
        rt.write_all(b"</text>\n")
    }

    // Prints the title.
    pub(crate) fn print_title(&self, rt: &impl Print) -> io::Result<()> {
        match self.page.shown {
            Shown::Order(_) => self.page.print_order_title(rt),
            Shown::Cycle(_) => self.print_cycle_title(rt),
            Shown::Unclean(fault) => self.page.print_unclean_title(rt, fault),
        }
    }

    // Prints the members of an order, sixteen a line.
    pub(crate) fn print_order(&self, rt: &impl Print, members: u16) -> io::Result<()> {
        let y = self.page.line(1);
        print!(rt; "<text class='words' x='20' y='{y}'>order")?;
        for i in 0..members {
            if 0 < i && i % 16 == 0 {
                self.page.break_line(rt, u32::from(i) / 16 + 1)?;
            }
            let member = self.entry(3 * usize::from(i));
            print!(rt; " {member}")?;
        }
        rt.write_all(b"</text>\n")
    }
}
