// Taking one step of a log: the refusal that applies to it, or what is noted of it. Each kind has a way of its own, and is told by
// comparisons alone.
ghost use Rattle.std.specs.Prelude.{◌≡◌, ◌⊎◌, ℕ, suc, ◌≤◌, ◌<◌, ◌+◌, ◌*◌, length};
ghost use Rattle.verdict.specs.Limits.{transactions, most_steps};
ghost use Rattle.verdict.specs.Log.{steps, kind, tx, obj, src};
ghost use Rattle.verdict.specs.Refusal.{◌else_try◌, range_refusal, life_refusal, source_refusal, step_refusal};
ghost use Rattle.verdict.specs.Inner.Checking.{Asks, Checks, in_range, InRange, StepsBefore, InOrder, Lived, Noted, Takes};
ghost use Rattle.verdict.specs.Inner.OwnReads.{misses};
ghost use Rattle.verdict.specs.Inner.WriteTable.{Versions};

use crate::answers::Refusal;
use crate::limits::{Object, Transaction};
use crate::own_reads::{misses, note_version};
use crate::step::{Step, step_at};
use crate::walk::object_marked;

// What a kind asks of its steps: how many objects there are, from 0 on; the highest source; how far the transaction has come; and the
// number of a step whose transaction has not.
#[derive(Clone, Copy)]
struct Asked {
    objects: u16,
    source: u16,
    life: u8,
    late: u16,
}

// The first of 4, 5 and 6 that applies to step i, by what its kind asks.
fn in_range(i: usize, t: u16, x: u16, s: u16, asked: Asked) -> Result<(), Refusal>
    ensures { result ≡ in_range i t x s asked }
{
    let transaction = Transaction::of(t);
    let Some(_) = transaction else {
        return Err(Refusal(4, i));
    };
    let object = Object::of(x);
    let Some(_) = object else {
        return Err(Refusal(5, i));
    };
    if asked.objects <= x {
        return Err(Refusal(5, i));
    }
    if asked.source < s {
        return Err(Refusal(6, i));
    }
    Ok(())
}

// The first of 3 to 8 that applies to step i, by what its kind asks and how far each transaction has come before it.
fn first_number(
    log: &[u16],
    i: usize,
    lives: &[u8; Transaction::TABLE],
    asked: Asked,
) -> Result<(), Refusal>
    requires { (4 * i + 4 ≤ length log.now) × Lived log.now i lives.now × Asks (kind log.now i) asked }
    ensures { result ≡ (range_refusal i (kind log.now i) (tx log.now i) (obj log.now i) (src log.now i) else_try life_refusal log.now i) }
{
    let step = step_at(log, i);
    in_range(i, step.tx, step.obj, step.src, asked)?;
    let life = lives[usize::from(step.tx)];
    if life == asked.life {
        return Ok(());
    }
    Err(Refusal(asked.late, i))
}

// 9, where it applies to read i, by the versions that are there before it.
fn source_number(log: &[u16], i: usize, versions: &[u64; Transaction::TABLE]) -> Result<(), Refusal>
    requires { (4 * i + 4 ≤ length log.now) × (kind log.now i ≡ 2) × InRange log.now i × Versions log.now i versions.now }
    ensures { result ≡ source_refusal log.now i }
{
    let step = step_at(log, i);
    if !object_marked(versions, step.src, step.obj) {
        return Err(Refusal(9, i));
    }
    Ok(())
}

// A begin: its transaction has not begun.
fn take_begin(
    log: &[u16],
    i: usize,
    lives: &mut [u8; Transaction::TABLE],
    begins: &mut [u16; Transaction::TABLE],
) -> Result<(), Refusal>
    requires { (i < steps log.now) × (steps log.now ≤ most_steps) × (kind log.now i ≡ 1) × Lived log.now i lives.old × StepsBefore log.now 1 i begins.old }
    ensures { Checks (step_refusal log.now i) (λ _. Lived log.now (i + 1) lives.new × StepsBefore log.now 1 (i + 1) begins.new) result }
{
    let asked = Asked {
        objects: 1,
        source: 0,
        life: 0,
        late: 7,
    };
    first_number(log, i, lives, asked)?;
    let step = step_at(log, i);
    let t = usize::from(step.tx);
    lives[t] = 1;
    begins[t] = i as u16;
    Ok(())
}

// A read, of an open transaction as all that follow. Whether it missed its own write.
fn take_read(
    log: &[u16],
    i: usize,
    lives: &[u8; Transaction::TABLE],
    versions: &[u64; Transaction::TABLE],
) -> Result<bool, Refusal>
    requires { (i < steps log.now) × (kind log.now i ≡ 2) × Lived log.now i lives.now × Versions log.now i versions.now }
    ensures { Checks (step_refusal log.now i) (λ missed. missed ≡ misses log.now i) result }
{
    let asked = Asked {
        objects: Object::LIMIT,
        source: Transaction::LIMIT,
        life: 1,
        late: 8,
    };
    first_number(log, i, lives, asked)?;
    source_number(log, i, versions)?;
    Ok(misses(log, i, versions))
}

// A write.
fn take_write(
    log: &[u16],
    i: usize,
    lives: &[u8; Transaction::TABLE],
    versions: &mut [u64; Transaction::TABLE],
) -> Result<(), Refusal>
    requires { (i < steps log.now) × (kind log.now i ≡ 3) × Lived log.now i lives.now × Versions log.now i versions.old × (length versions.old ≡ suc transactions) }
    ensures { Checks (step_refusal log.now i)
        (λ _. Versions log.now (i + 1) versions.new × (length versions.new ≡ suc transactions)) result }
{
    let asked = Asked {
        objects: Object::LIMIT,
        source: 0,
        life: 1,
        late: 8,
    };
    first_number(log, i, lives, asked)?;
    note_version(log, i, versions);
    Ok(())
}

// A read or a write. Whether it is a read that missed its own write.
fn take_touch(
    log: &[u16],
    i: usize,
    lives: &[u8; Transaction::TABLE],
    versions: &mut [u64; Transaction::TABLE],
) -> Result<bool, Refusal>
    requires { (i < steps log.now) × (2 ≤ kind log.now i) × (kind log.now i ≤ 3) × Lived log.now i lives.now × Versions log.now i versions.old × (length versions.old ≡ suc transactions) }
    ensures { Checks (step_refusal log.now i)
        (λ missed. Versions log.now (i + 1) versions.new × (length versions.new ≡ suc transactions) × (missed ≡ misses log.now i)) result }
{
    let step = step_at(log, i);
    if step.kind == Step::READ {
        return take_read(log, i, lives, versions);
    }
    take_write(log, i, lives, versions)?;
    Ok(false)
}

// An end, by commit or abort.
fn take_end(log: &[u16], i: usize, lives: &mut [u8; Transaction::TABLE]) -> Result<(), Refusal>
    requires { (i < steps log.now) × ((kind log.now i ≡ 4) ⊎ (kind log.now i ≡ 5)) × Lived log.now i lives.old }
    ensures { Checks (step_refusal log.now i) (λ _. Lived log.now (i + 1) lives.new) result }
{
    let asked = Asked {
        objects: 1,
        source: 0,
        life: 1,
        late: 8,
    };
    first_number(log, i, lives, asked)?;
    let step = step_at(log, i);
    let t = usize::from(step.tx);
    lives[t] = 2;
    Ok(())
}

// A commit: an end, and who commits is noted.
fn take_commit(
    log: &[u16],
    i: usize,
    lives: &mut [u8; Transaction::TABLE],
    commits: &mut [u16; Transaction::TABLE],
    part: &mut [u64; graph::WORDS],
    earlier: &mut [u16; Transaction::TABLE],
) -> Result<(), Refusal>
    requires { (i < steps log.now) × (steps log.now ≤ most_steps) × (kind log.now i ≡ 4) × Lived log.now i lives.old × InOrder log.now i commits.old part.old earlier.old }
    ensures { Checks (step_refusal log.now i)
        (λ _. Lived log.now (i + 1) lives.new × InOrder log.now (i + 1) commits.new part.new earlier.new) result }
{
    take_end(log, i, lives)?;
    let step = step_at(log, i);
    let t = usize::from(step.tx);
    commits[t] = i as u16;
    *part = graph::with_vertex(*part, t);
    earlier[t] = earlier[0];
    earlier[0] = t as u16;
    Ok(())
}

// A commit or an abort: the last step of its transaction.
fn take_last(
    log: &[u16],
    i: usize,
    lives: &mut [u8; Transaction::TABLE],
    commits: &mut [u16; Transaction::TABLE],
    part: &mut [u64; graph::WORDS],
    earlier: &mut [u16; Transaction::TABLE],
) -> Result<(), Refusal>
    requires { (i < steps log.now) × (steps log.now ≤ most_steps) × (4 ≤ kind log.now i) × (kind log.now i ≤ 5) × Lived log.now i lives.old × InOrder log.now i commits.old part.old earlier.old }
    ensures { Checks (step_refusal log.now i)
        (λ _. Lived log.now (i + 1) lives.new × InOrder log.now (i + 1) commits.new part.new earlier.new) result }
{
    let step = step_at(log, i);
    if step.kind == Step::COMMIT {
        return take_commit(log, i, lives, commits, part, earlier);
    }
    take_end(log, i, lives)
}

// Step i, by what is noted of the steps before it: the refusal that applies, or whether it is a read that missed its own write. Two arms
// take two kinds each: with an arm for each kind the match becomes one jump through a table, which a processor guesses worse than
// comparisons where kinds follow no rule.
pub(crate) fn take_step(
    log: &[u16],
    i: usize,
    lives: &mut [u8; Transaction::TABLE],
    begins: &mut [u16; Transaction::TABLE],
    commits: &mut [u16; Transaction::TABLE],
    part: &mut [u64; graph::WORDS],
    earlier: &mut [u16; Transaction::TABLE],
    versions: &mut [u64; Transaction::TABLE],
) -> Result<bool, Refusal>
    requires { (i < steps log.now) × (steps log.now ≤ most_steps) × Noted log.now i lives.old begins.old commits.old part.old earlier.old versions.old }
    ensures { Takes log.now i result lives.new begins.new commits.new part.new earlier.new versions.new }
{
    let step = step_at(log, i);
    let kind = step.kind;
    match kind {
        Step::BEGIN => {
            take_begin(log, i, lives, begins)?;
            Ok(false)
        }
        Step::READ | Step::WRITE => take_touch(log, i, lives, versions),
        Step::COMMIT | Step::ABORT => {
            take_last(log, i, lives, commits, part, earlier)?;
            Ok(false)
        }
        _ => Err(Refusal(3, i)),
    }
}
