// The members laid into the proposal: rising, with zeros behind them.
ghost use Rattle.std.specs.Prelude.{◌≡◌, false, ◌+◌, ◌<◌, length};
ghost use Rattle.words.specs.Lists.{zeros};
ghost use Rattle.plan.specs.Proposal.{proposal_entries};
ghost use Rattle.plan.specs.Inner.Marks.{table, marked};
ghost use Rattle.plan.specs.Inner.Laying.{Laid};

use verdict::Transaction;

// All numbers of the proposal become 0.
pub(crate) fn clear_proposal(proposal: &mut [u16])
    ensures { proposal.new ≡ zeros (length proposal.old) }
{
    proposal.fill(0);
}

// Lays t behind those that are laid already, if it is marked, and answers how many are laid then.
fn lay_member(proposal: &mut [u16], marks: &[u8; Transaction::TABLE], count: usize, t: u16) -> usize
    requires { (length marks.now ≡ table) × (marked marks.now 0 ≡ false) × (t < table) × Laid marks.now t proposal.old count }
    ensures { Laid marks.now (t + 1) proposal.new result }
{
    if marks[usize::from(t)] == 0 {
        return count;
    }
    proposal[count] = t;
    count + 1
}

// Lays all that are marked into a proposal of zeros, and answers how many they are.
pub(crate) fn lay_members(proposal: &mut [u16], marks: &[u8; Transaction::TABLE]) -> usize
    requires { (length marks.now ≡ table) × (marked marks.now 0 ≡ false) × (proposal.old ≡ zeros proposal_entries) }
    ensures { Laid marks.now table proposal.new result }
{
    let mut count = 0;
    for t in 0..=Transaction::LIMIT {
        count = lay_member(proposal, marks, count, t);
    }
    count
}
