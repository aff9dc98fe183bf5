// Where steps, lanes and lines of text stand on the page, and how large the page is.
ghost use Rattle.std.specs.Prelude.{◌≤◌};

// What the version verdict shows: an order or a cycle, by how many members it has, or an unclean read, by its step.
#[derive(Clone, Copy)]
pub(crate) enum Shown {
    Order(u16),
    Cycle(u16),
    Unclean(u16),
}

// What is drawn: how many steps and lanes, and what the version verdict shows.
#[derive(Clone, Copy)]
pub(crate) struct Page {
    pub(crate) steps: u16,
    pub(crate) lanes: u16,
    pub(crate) shown: Shown,
}

impl Page {
    // How many members of a cycle are shown.
    pub(crate) fn cycle(self) -> u16 {
        match self.shown {
            Shown::Cycle(n) => n,
            _ => 0,
        }
    }

    // Whether the marks are large and have labels.
    pub(crate) fn labelled(self) -> bool {
        self.steps <= 60
    }

    // Whether a page without labels has so few arrows that they can be large.
    pub(crate) fn few_arrows(self) -> bool {
        self.cycle() <= 12
    }

    // Whether there are so many lanes that the page, high as it is, is made as wide as a sheet of paper so high.
    fn many_lanes(self) -> bool {
        60 < self.lanes
    }

    // How far to the right a step stands where there are many lanes.
    fn far_across(self, i: u16) -> u32
        ensures { result ≤ 7000000 }
    {
        let place = u32::from(i);
        match self.steps {
            ..=120 => 100 + 26 * place,
            ..=250 => 100 + 14 * place,
            ..=500 => 100 + 8 * place,
            _ => 100 + 4 * place,
        }
    }

    // How far to the right a step stands.
    pub(crate) fn across(self, i: u16) -> u32
        ensures { result ≤ 7000000 }
    {
        if self.many_lanes() {
            return self.far_across(i);
        }
        let place = u32::from(i);
        match self.steps {
            ..=20 => 100 + 50 * place,
            ..=60 => 100 + 27 * place,
            ..=120 => 100 + 11 * place,
            ..=250 => 100 + 6 * place,
            _ => 100 + 2 * place,
        }
    }

    // How far below the top of the lanes a lane stands. Lanes are counted from 1.
    pub(crate) fn down(self, lane: u16) -> u32
        ensures { result ≤ 7000000 }
    {
        let place = u32::from(lane);
        match self.lanes {
            ..=6 => 100 * place,
            ..=12 if !self.labelled() => 100 * place,
            ..=12 => 64 * place,
            ..=24 => 46 * place,
            _ => 16 * place,
        }
    }

    // How far below the top of the lanes the numbers of the steps stand: a little above the first lane.
    pub(crate) fn numbers_down(self) -> u32
        ensures { result ≤ 100 }
    {
        match self.lanes {
            ..=6 => 45,
            ..=12 => 20,
            _ => 10,
        }
    }

    // How far below the top of a block of text its line k stands.
    pub(crate) fn line(self, k: u32) -> u32
        requires { k ≤ 100000 }
        ensures { result ≤ 7000000 }
    {
        if self.labelled() {
            return 24 * k;
        }
        46 * k
    }

    // The line of the title, counted from 0, on which member i of a cycle stands: six a line, and three times as many where the page is wide.
    pub(crate) fn title_line(self, i: u16) -> u32
        ensures { result ≤ 11000 }
    {
        if self.many_lanes() {
            return u32::from(i) / 18;
        }
        u32::from(i) / 6
    }

    // How many lines the title has room for.
    fn lines_above(self) -> u32
        ensures { result ≤ 20000 }
    {
        1 + self.title_line(self.cycle())
    }

    // The line below the lanes where it begins to be said what the marks mean: behind an order, sixteen members a line.
    pub(crate) fn meaning_line(self) -> u32
        ensures { result ≤ 20000 }
    {
        match self.shown {
            Shown::Order(n) => 2 + u32::from(n) / 16,
            Shown::Cycle(_) => 1,
            Shown::Unclean(_) => 2,
        }
    }

    // Where the lanes have their top.
    pub(crate) fn top(self) -> u32
        ensures { result ≤ 7000030 }
    {
        if self.labelled() {
            return self.line(self.lines_above()) + 10;
        }
        self.line(self.lines_above()) + 30
    }

    // Where the lanes have their end.
    pub(crate) fn bottom(self) -> u32
        ensures { result ≤ 14000100 }
    {
        self.top() + self.down(self.lanes) + 40
    }

    // How wide the lines of text are.
    fn text_width(self) -> u32
        ensures { result ≤ 7000100 }
    {
        if self.labelled() {
            return 700;
        }
        if self.many_lanes() {
            return 3200;
        }
        1400
    }

    // How wide the page is.
    pub(crate) fn width(self) -> u32
        ensures { result ≤ 7000100 }
    {
        let needed = self.across(self.steps) + 40;
        needed.max(self.text_width())
    }

    // How high the page is.
    pub(crate) fn height(self) -> u32
        ensures { result ≤ 21000100 }
    {
        self.bottom() + self.line(self.meaning_line() + 6)
    }

    // How large the letters of a lane's number are.
    pub(crate) fn number_size(self) -> u32 {
        if self.labelled() || 24 < self.lanes {
            return 14;
        }
        28
    }

    // How far to the right a lane's number ends.
    pub(crate) fn number_across(self) -> u32 {
        if self.labelled() {
            return 40;
        }
        80
    }

    // How many times as large as the smallest a mark without a label is.
    pub(crate) fn mark_size(self) -> u32 {
        if self.steps <= 120 || (self.many_lanes() && self.steps <= 500) {
            return 2;
        }
        1
    }

    // How far below its lane the source of read i stands: where steps are narrow, those of neighbours stand at different places.
    pub(crate) fn source_down(self, i: u16) -> u32 {
        if self.steps <= 20 || i % 2 == 0 {
            return 15;
        }
        26
    }
}
