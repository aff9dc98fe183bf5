// The steps of a log, as the picture asks for them.
use verdict::{Log, Step};

// A number of steps or members, which are no more than a log may have steps.
pub(crate) fn small(n: usize) -> u16 {
    n.min(Log::LIMIT) as u16
}

// The steps of a log.
#[derive(Clone, Copy)]
pub(crate) struct Steps<'a> {
    pub(crate) log: &'a [u16],
}

impl Steps<'_> {
    // How many they are.
    pub(crate) fn count(self) -> u16 {
        small(self.log.len() / 4)
    }

    // Step i.
    pub(crate) fn at(self, i: u16) -> Option<Step> {
        let a = 4 * usize::from(i);
        match self.log.get(a..a + 4) {
            Some([kind, tx, obj, src]) => Some(Step {
                kind: *kind,
                tx: *tx,
                obj: *obj,
                src: *src,
            }),
            _ => None,
        }
    }

    // Where a transaction does something to an object, the last time.
    pub(crate) fn last_of(self, kind: u16, tx: u16, obj: u16, src: u16) -> Option<u16> {
        let step = Step { kind, tx, obj, src };
        (0..self.count()).rev().find(|i| self.at(*i) == Some(step))
    }

    // Where a transaction ends by an abort.
    pub(crate) fn abort_of(self, tx: u16) -> Option<u16> {
        self.last_of(Step::ABORT, tx, 0, 0)
    }

    // Where a transaction ends.
    pub(crate) fn end_of(self, tx: u16) -> Option<u16> {
        self.abort_of(tx)
            .or_else(|| self.last_of(Step::COMMIT, tx, 0, 0))
    }

    // The writer of an object's version that a transaction has replaced by its own: who committed last before it, of those that write the object.
    pub(crate) fn version_before(self, obj: u16, tx: u16) -> u16 {
        (0..self.count())
            .filter_map(|i| self.at(i))
            .filter(|step| step.kind == Step::COMMIT)
            .take_while(|step| step.tx != tx)
            .filter(|step| self.last_of(Step::WRITE, step.tx, obj, 0).is_some())
            .last()
            .map_or(0, |step| step.tx)
    }
}
