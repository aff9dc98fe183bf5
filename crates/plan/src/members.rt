// The members of a proposal.
ghost use Rattle.std.specs.Prelude.{◌≡◌, false, length};
ghost use Rattle.words.specs.Tests.{◌and◌, fails};
ghost use Rattle.plan.specs.Inner.Marks.{table, marked, MembersOf};

use crate::marks::is_marked;
use verdict::Transaction;

// The members of a proposal, which are different and committed: how many they are, and the marks of them.
#[derive(Clone, Copy)]
pub(crate) struct Members {
    pub count: usize,
    pub marks: [u8; Transaction::TABLE],
}

// Whether t may be named next: it committed, and is not named yet.
fn may_name(who: &[u8; Transaction::TABLE], named: &[u8; Transaction::TABLE], t: usize) -> bool
    requires { (length who.now ≡ table) × (length named.now ≡ table) }
    ensures { result ≡ (marked who.now t and fails (marked named.now t)) }
{
    if !is_marked(who, t) {
        return false;
    }
    !is_marked(named, t)
}

// The members, by the marks of those that committed, if they are different and committed.
pub(crate) fn look_at(proposal: &[u16], who: &[u8; Transaction::TABLE]) -> Option<Members>
    requires { (length who.now ≡ table) × (marked who.now 0 ≡ false) }
    ensures { MembersOf who.now proposal.now result }
{
    let mut marks = [0u8; Transaction::TABLE];
    for i in 0..proposal.len() {
        let t = usize::from(proposal[i]);
        if t == 0 {
            return Some(Members { count: i, marks });
        }
        if !may_name(who, &marks, t) {
            return None;
        }
        marks[t] = 1;
    }
    Some(Members {
        count: proposal.len(),
        marks,
    })
}
