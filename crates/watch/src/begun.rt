// The line that has begun: its bytes as they come, in whatever pieces.
ghost use Rattle.std.specs.Prelude.{List, [], ◌∷◌, ◌++◌, ℕ};
ghost use Rattle.text.specs.OneLine.{SaysLine};
ghost use Rattle.watch.specs.Begun.{Keeps};

use text::{OneLine, Text, read_line};

// The bytes of a line so far, how many they are, and whether it is the first line. One more than the longest line has stands for any more.
#[derive(Drop)]
pub(crate) struct Begun {
    bytes: [u8; Text::LINE],
    count: usize,
    pub(crate) first: bool,
}

impl Begun {
    // A line of which nothing has come.
    pub(crate) fn new(first: bool) -> Begun
        ensures { Keeps [] result.bytes result.count }
    {
        Begun {
            bytes: [0u8; Text::LINE],
            count: 0,
            first,
        }
    }

    // Whether nothing has come of it.
    pub(crate) fn is_empty(&self) -> bool {
        self.count == 0
    }

    // Takes a byte more.
    pub(crate) fn push(&mut self, byte: u8)
        ensures { (came : List ℕ) → Keeps came self.old.bytes self.old.count → Keeps (came ++ byte ∷ []) self.new.bytes self.new.count }
    {
        if Text::LINE <= self.count {
            self.count = Text::LINE + 1;
            return;
        }
        self.bytes[self.count] = byte;
        self.count += 1;
    }

    // What the line says, its line end with it.
    pub(crate) fn said(&self) -> OneLine
        ensures { (came : List ℕ) → Keeps came self.now.bytes self.now.count → SaysLine came result }
    {
        if Text::LINE < self.count {
            return OneLine::Other;
        }
        read_line(&self.bytes[..self.count])
    }
}
