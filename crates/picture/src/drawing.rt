// The drawing as a whole: a log on its lanes, with the version verdict, and what stands below them.
use crate::lanes::Lanes;
use crate::page::{Page, Shown};
use crate::steps::Steps;
use std::io;

// What is drawn: the steps of a log, their lanes, where all stands on the page, and the members that the version verdict shows.
#[derive(Drop)]
pub(crate) struct Drawing<'a> {
    pub(crate) steps: Steps<'a>,
    pub(crate) lanes: Lanes,
    pub(crate) page: Page,
    witness: &'a [u16],
}

impl<'a> Drawing<'a> {
    // The drawing of a log and of what its verdict shows.
    pub(crate) fn new(steps: Steps<'a>, shown: Shown, witness: &'a [u16]) -> Drawing<'a> {
        let lanes = Lanes::new(steps);
        let page = Page {
            steps: steps.count(),
            lanes: lanes.count,
            shown,
        };
        Drawing {
            steps,
            lanes,
            page,
            witness,
        }
    }

    // A number of the witness; beyond its end there is 0.
    pub(crate) fn entry(&self, k: usize) -> u16 {
        self.witness.get(k).copied().unwrap_or(0)
    }

    // How far to the right a step stands, the first one where there is none.
    pub(crate) fn across(&self, step: Option<u16>) -> u32 {
        self.page.across(step.unwrap_or(0))
    }

    // How far below the top of the lanes that of a transaction stands; at the top where it has none.
    pub(crate) fn down(&self, tx: u16) -> u32 {
        self.lanes
            .lane_of(tx)
            .map_or(0, |lane| self.page.down(lane))
    }

    // Prints the ring of a fault, if there is one.
    fn print_ring(&self, rt: &impl Print) -> io::Result<()> {
        if let Shown::Unclean(fault) = self.page.shown
            && let Some(step) = self.steps.at(fault)
        {
            self.page.print_fault(rt, fault, self.down(step.tx))?;
        }
        Ok(())
    }

    // Prints the lanes with all that stands on them.
    fn print_body(&self, rt: &impl Print) -> io::Result<()> {
        let top = self.page.top();
        print!(rt; "<g transform='translate(0,{top})'>\n")?;
        self.page.print_numbers(rt)?;
        self.print_arrows(rt)?;
        self.print_lanes(rt)?;
        self.print_reasons(rt)?;
        self.print_ring(rt)?;
        rt.write_all(b"</g>\n")
    }

    // Prints what stands below the lanes: an order, and what everything means.
    fn print_foot(&self, rt: &impl Print) -> io::Result<()> {
        let bottom = self.page.bottom();
        print!(rt; "<g transform='translate(0,{bottom})'>\n")?;
        if let Shown::Order(members) = self.page.shown {
            self.print_order(rt, members)?;
        }
        self.page.print_legend(rt)?;
        rt.write_all(b"</g>\n</svg>\n")
    }

    // Prints the picture.
    pub(crate) fn print(&self, rt: &impl Print) -> io::Result<()> {
        self.page.open_picture(rt)?;
        self.page.print_style(rt)?;
        self.print_title(rt)?;
        self.print_body(rt)?;
        self.print_foot(rt)
    }
}
