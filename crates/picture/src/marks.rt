// The marks of the steps on a lane, each with its label where there is room.
use crate::page::Page;
use std::io;
use verdict::Step;

// Prints the small mark of a step, which has no label, so many times as large as the smallest.
fn print_small(rt: &impl Print, x: u32, kind: u16, size: u32) -> io::Result<()> {
    print!(rt; "<g transform='translate({x},0) scale({size})'>")?;
    match kind {
        Step::BEGIN => rt.write_all(b"<path d='M0 -4v8'/></g>\n"),
        Step::READ => rt.write_all(b"<circle class='read' r='2'/></g>\n"),
        Step::WRITE => rt.write_all(b"<path d='M-2 -2h4v4h-4z'/></g>\n"),
        Step::COMMIT => rt.write_all(b"<circle r='3'/></g>\n"),
        _ => rt.write_all(b"<path d='M-3 -3l6 6m0 -6l-6 6'/></g>\n"),
    }
}

// Prints the mark of a read, with its object and its source, which stands this far below the lane.
fn print_read(rt: &impl Print, x: u32, step: Step, below: u32) -> io::Result<()> {
    let obj = step.obj;
    let src = step.src;
    print!(rt;
        "<g transform='translate({x},0)'><circle class='read' r='5'/><text x='6' y='-9'>r{obj}</text><text class='from' x='8' y='{below}'>from {src}</text></g>\n"
    )
}

// Prints the mark of a write, with its object.
fn print_write(rt: &impl Print, x: u32, obj: u16) -> io::Result<()> {
    print!(rt;
        "<g transform='translate({x},0)'><path d='M-5 -5h10v10h-10z'/><text x='6' y='-9'>w{obj}</text></g>\n"
    )
}

// Prints the large mark of a step. The label of a begin stands before the lane's line, that of a commit or an abort behind it.
fn print_large(rt: &impl Print, x: u32, step: Step, below: u32) -> io::Result<()> {
    match step.kind {
        Step::BEGIN => print!(rt;
            "<g transform='translate({x},0)'><path d='M0 -8V8'/><text class='end' x='-7' y='5'>begin</text></g>\n"
        ),
        Step::READ => print_read(rt, x, step, below),
        Step::WRITE => print_write(rt, x, step.obj),
        Step::COMMIT => print!(rt;
            "<g transform='translate({x},0)'><circle r='6'/><text x='11' y='5'>commit</text></g>\n"
        ),
        _ => print!(rt;
            "<g transform='translate({x},0)'><path d='M-7 -7L7 7M-7 7L7 -7'/><text x='11' y='5'>abort</text></g>\n"
        ),
    }
}

impl Page {
    // Prints the mark of step i.
    pub(crate) fn print_mark(self, rt: &impl Print, i: u16, step: Step) -> io::Result<()> {
        let x = self.across(i);
        if self.labelled() {
            return print_large(rt, x, step, self.source_down(i));
        }
        print_small(rt, x, step.kind, self.mark_size())
    }
}
