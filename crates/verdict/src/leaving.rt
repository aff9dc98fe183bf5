// What a call leaves in the lent buffers: the work area all 0, and the entries of its answer in the witness.
ghost use Rattle.std.specs.Prelude.{◌≡◌, length};
ghost use Rattle.words.specs.Lists.{zeros};
ghost use Rattle.verdict.specs.Limits.{witness_buffer};
ghost use Rattle.verdict.specs.Inner.Leaving.{Leaves};

use crate::answers::{Answer, ExactWitnessed, Exactness, Witnessed};
use crate::limits::Transaction;

// All bytes of the work area become 0.
pub fn clear(work: &mut [u8])
    ensures { work.new ≡ zeros (length work.old) }
{
    work.fill(0);
}

// Lays the entries into the lent witness: they stand first, with zeros behind them.
fn lay(witness: &mut [u16], list: &[u16; Transaction::WITNESS])
    requires { (length witness.old ≡ witness_buffer) × (length list.now ≡ witness_buffer) }
    ensures { witness.new ≡ list.now }
{
    witness.copy_from_slice(list);
}

// Clears the work area, lays the entries into the witness, and says the answer.
pub(crate) fn leave(work: &mut [u8], witness: &mut [u16], found: Witnessed) -> Answer
    requires { length witness.old ≡ witness_buffer }
    ensures { Leaves work.old found result work.new witness.new }
{
    let answer = found.answer;
    let list = found.list;
    clear(work);
    lay(witness, &list);
    answer
}

// An answer without members.
pub(crate) fn without_members(answer: Answer) -> Witnessed
    ensures { (result.answer ≡ answer) × (result.list ≡ zeros 384) }
{
    Witnessed {
        answer,
        list: [0u16; Transaction::WITNESS],
    }
}

// An exact verdict without members.
pub(crate) fn exact_without_members(exactness: Exactness) -> ExactWitnessed
    ensures { result ≡ record { exactness = exactness; list = zeros 384 } }
{
    ExactWitnessed {
        exactness,
        list: [0u16; Transaction::WITNESS],
    }
}
