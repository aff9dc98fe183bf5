// The lines of steps in a text.
ghost use Rattle.std.specs.Prelude.{◌≡◌, [], ◌∷◌, ◌+◌, ◌*◌, ◌≤◌, length};
ghost use Rattle.text.specs.Line.{op, has_word};
ghost use Rattle.text.specs.Inner.Put.{put_at};
ghost use Rattle.text.specs.Inner.Finds.{Finds, FindsLine, Passes};

use crate::number::{item_at, stands};
use verdict::Step;

// The kind at this place, by its word, with the blank behind it, and the place behind that.
fn kind_at(text: &[u8], at: usize) -> Option<(u16, usize)>
    requires { at ≤ length text.now }
    ensures { Finds op has_word text.now at result }
{
    if stands(text, at, b"op=begin ") {
        return Some((Step::BEGIN, at + 9));
    }
    if stands(text, at, b"op=read ") {
        return Some((Step::READ, at + 8));
    }
    if stands(text, at, b"op=write ") {
        return Some((Step::WRITE, at + 9));
    }
    if stands(text, at, b"op=commit ") {
        return Some((Step::COMMIT, at + 10));
    }
    if stands(text, at, b"op=abort ") {
        return Some((Step::ABORT, at + 9));
    }
    None
}

// The step whose line stands at this place, and the place behind the line.
pub(crate) fn line_at(text: &[u8], at: usize) -> Option<(Step, usize)>
    requires { at ≤ length text.now }
    ensures { FindsLine text.now at result }
{
    let (kind, a) = kind_at(text, at)?;
    let (tx, b) = item_at(text, a, b"tx=", b' ')?;
    let (obj, c) = item_at(text, b, b"obj=", b' ')?;
    let (src, end) = item_at(text, c, b"from=", b'\n')?;
    Some((Step { kind, tx, obj, src }, end))
}

// Puts the numbers of step i in the buffer.
fn put_step(steps: &mut [u16], i: usize, step: Step)
    requires { 4 * i + 4 ≤ length steps.old }
    ensures { steps.new ≡ put_at (4 * i) (step.kind ∷ step.tx ∷ step.obj ∷ step.src ∷ []) steps.old }
{
    let a = 4 * i;
    steps[a] = step.kind;
    steps[a + 1] = step.tx;
    steps[a + 2] = step.obj;
    steps[a + 3] = step.src;
}

// Goes over n lines from this place on, and puts the step of each in the buffer: the place behind them, or how many are before the first that is
// not in form.
pub(crate) fn pass(text: &[u8], at: usize, n: usize, steps: &mut [u16]) -> Result<usize, usize>
    requires { (at ≤ length text.now) × (4 * n ≤ length steps.old) }
    ensures { Passes text.now at n steps.old result steps.new }
{
    let mut place = at;
    for i in 0..n {
        let Some((step, next)) = line_at(text, place) else {
            return Err(i);
        };
        put_step(steps, i, step);
        place = next;
    }
    Ok(place)
}
