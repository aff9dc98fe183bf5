// How the picture's elements look, and the lines that say what they mean.
use crate::page::{Page, Shown};
use std::io;

// Prints how lanes and marks look. Lines of text, the numbers of steps and those of lanes have letters of these sizes.
fn print_lane_style(rt: &impl Print, words: u32, numbers: u32, lane: u32) -> io::Result<()> {
    print!(rt;
        "<style>\n@page{{size:landscape;margin:1cm}}\ntext{{font-family:sans-serif;font-size:14px;stroke:none}}\n.words{{font-size:{words}px}}\n.step{{font-size:{numbers}px;fill:#555;text-anchor:middle}}\n.number{{font-size:{lane}px;font-weight:bold;text-anchor:end}}\n"
    )?;
    rt.write_all(
        b".guide{stroke:#ddd}\n.lane{fill:#000;stroke:#000;stroke-width:2}\n.gone{fill:#666;stroke:#888}\n.run{fill:none}\n.read{fill:#fff}\n.end{text-anchor:end}\n.from{font-size:11px}\n",
    )
}

// Prints how arrows and a fault look.
fn print_arrow_style(rt: &impl Print, thick: u32) -> io::Result<()> {
    print!(rt; ".arrow{{fill:none;stroke:#05a;stroke-width:{thick}}}\n")?;
    rt.write_all(
        b".reason{fill:#05a;stroke:#05a}\n.reason rect{fill:#fff}\n.reason text{font-weight:bold;text-anchor:middle}\n.fault{fill:#c00;stroke:#c00;stroke-width:3}\n.fault circle{fill:none}\n.fault text{font-size:17px;font-weight:bold;text-anchor:middle}\n</style>\n",
    )?;
    rt.write_all(
        b"<defs><marker id='head' viewBox='0 0 10 10' refX='14' refY='5' markerWidth='6' markerHeight='6' orient='auto'><path d='M0 0L10 5L0 10z' fill='#05a'/></marker></defs>\n",
    )
}

// Says what the marks mean.
fn print_marks_meaning(rt: &impl Print) -> io::Result<()> {
    rt.write_all(
        b"<g class='lane'><path d='M7 0v16'/><text x='22' y='13'>begin</text><circle cx='87' cy='8' r='7'/><text x='102' y='13'>commit</text><path d='M170 1l14 14m0 -14l-14 14'/><text x='194' y='13'>abort: what stands on a dashed lane has done nothing</text></g>\n",
    )?;
    rt.write_all(
        b"<g class='lane'><circle class='read' cx='7' cy='32' r='5'/><text x='22' y='37'>r0 from 2: reads object 0 as 2 wrote it; from 0: as it was before the log</text><path d='M2 51h10v10h-10z'/><text x='22' y='61'>w0: writes object 0</text></g>\n",
    )
}

// Says what an order, the arrows or the ring mean.
fn print_meaning(rt: &impl Print, shown: Shown) -> io::Result<()> {
    match shown {
        Shown::Order(_) => rt.write_all(
            b"<text x='0' y='85'>One after another in this order, those that committed would read the same.</text>\n",
        ),
        Shown::Cycle(_) => rt.write_all(
            b"<text x='0' y='85'>An arrow: this one must come before that one. They lead round in a circle: no order follows them all.</text>\n<text x='0' y='109'>ww:0 that one overwrites what this one wrote; wr:0 that one reads what this one wrote;</text>\n<text x='0' y='133'>rw:0 this one reads object 0 as it was before that one wrote it.</text>\n",
        ),
        Shown::Unclean(_) => rt.write_all(
            b"<text x='0' y='85'>The read in the ring is at fault. The report says in its line clean= what is wrong with it.</text>\n",
        ),
    }
}

impl Page {
    // Opens the picture: as large as it has to be, shown no larger than a sheet of paper.
    pub(crate) fn open_picture(self, rt: &impl Print) -> io::Result<()> {
        let width = self.width();
        let height = self.height();
        let wide = width.min(970);
        let high = height.min(690);
        print!(rt;
            "<svg xmlns='http://www.w3.org/2000/svg' viewBox='0 0 {width} {height}' width='{wide}' height='{high}' preserveAspectRatio='xMinYMin'>\n"
        )?;
        print!(rt; "<rect width='{width}' height='{height}' fill='#fff'/>\n")
    }

    // Prints how everything looks. Where the page is made smaller to be shown, its lines of text have larger letters.
    pub(crate) fn print_style(self, rt: &impl Print) -> io::Result<()> {
        if self.labelled() {
            print_lane_style(rt, 17, 11, self.number_size())?;
            return print_arrow_style(rt, 2);
        }
        print_lane_style(rt, 34, 24, self.number_size())?;
        print_arrow_style(rt, if self.few_arrows() { 4 } else { 2 })
    }

    // Prints the lines that say what the marks and the verdict mean, below the order.
    pub(crate) fn print_legend(self, rt: &impl Print) -> io::Result<()> {
        let y = self.line(self.meaning_line());
        if self.labelled() {
            print!(rt; "<g transform='translate(20,{y})'>\n")?;
        } else {
            print!(rt; "<g transform='translate(20,{y}) scale(2)'>\n")?;
        }
        print_marks_meaning(rt)?;
        print_meaning(rt, self.shown)?;
        rt.write_all(b"</g>\n")
    }
}
