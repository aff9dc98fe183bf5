// The reasons on a cycle: who stands before whom on it, and the least reason that was offered for each member.
ghost use Rattle.std.specs.Prelude.{◌≡◌, suc, ◌≤◌, ◌<◌, length};
ghost use Rattle.verdict.specs.Limits.{transactions, objects};
ghost use Rattle.verdict.specs.Inner.Reasons.{reason_number, number_if, offered, Ring, Before};

use crate::limits::Transaction;

// The kinds of a dependency: from a write to a write, from a write to a read, from a read to a write.
pub const WW: u16 = 1;

pub const WR: u16 = 2;

pub const RW: u16 = 3;

// More than the number of any reason, so that whatever is offered first is lower.
pub(crate) const NO_REASON: u16 = 256;

// Who stands before each member of a cycle; 0 for all others.
pub(crate) fn before_each(members: &[u16]) -> [u16; Transaction::TABLE]
    requires { Ring members.now }
    ensures { Before members.now result }
{
    let mut before = [0u16; Transaction::TABLE];
    let mut last = members[members.len() - 1];
    for i in 0..members.len() {
        let t = members[i];
        before[usize::from(t)] = last;
        last = t;
    }
    before
}

// The number of a reason: the lowest object goes first, and on one object the lowest kind.
pub(crate) fn reason_number(x: u16, kind: u16) -> u16
    requires { (x < objects) × (kind < 4) }
    ensures { result ≡ reason_number x kind }
{
    4 * x + kind
}

// The number of a reason, if it fits.
pub(crate) fn number_if(fits: bool, x: u16, kind: u16) -> u16
    requires { (x < objects) × (kind < 4) }
    ensures { result ≡ number_if fits x kind }
{
    if fits {
        return reason_number(x, kind);
    }
    NO_REASON
}

// Offers a reason for the edge that leads on from a. The first is kept.
pub(crate) fn offer(best: &mut [u16; Transaction::TABLE], a: u16, number: u16)
    requires { (length best.old ≡ suc transactions) × (a ≤ transactions) }
    ensures { best.new ≡ offered best.old a number }
{
    let at = usize::from(a);
    if number < best[at] {
        best[at] = number;
    }
}
