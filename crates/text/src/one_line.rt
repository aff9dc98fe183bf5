// One line by itself, with its line end: a step, a header, or neither.
ghost use Rattle.text.specs.OneLine.{SaysLine};
ghost use Rattle.text.specs.Inner.Finds.{FindsHeader};

use crate::OneLine;
use crate::line::line_at;
use crate::number::item_at;

// Whether the bytes are a header and no more.
fn is_header(bytes: &[u8]) -> bool
    ensures { FindsHeader bytes.now result }
{
    match item_at(bytes, 0, b"steps=", b'\n') {
        Some((_, behind)) => bytes.len() <= behind,
        None => false,
    }
}

// What the line of these bytes says.
pub fn read_line(bytes: &[u8]) -> OneLine
    ensures { SaysLine bytes.now result }
{
    if is_header(bytes) {
        return OneLine::Header;
    }
    let Some((step, end)) = line_at(bytes, 0) else {
        return OneLine::Other;
    };
    if end < bytes.len() {
        return OneLine::Other;
    }
    OneLine::Step(step.kind, step.tx, step.obj, step.src)
}
