// The one number in which a C call answers.
ghost use Rattle.std.specs.Prelude.{◌≡◌};
ghost use Rattle.exports.specs.Packed.{refused_numbers, ◌with◌and◌then◌, fault_numbers, clean_numbers, read_numbers, snapshot_numbers, witness_numbers, count_numbers, live_numbers, accepts_numbers, packed};
ghost use Rattle.exports.specs.Inner.Small.{Small};

use plan::Acceptance;
use verdict::answers::{Answer, Cleanness, Fault, Refusal, Snapshot, Writer};

// The kinds of answer, as the C header numbers them.
const REFUSED: u64 = 0;

const ORDER: u64 = 1;

const CYCLE: u64 = 2;

const NONE: u64 = 3;

const ABORTED: u64 = 4;

const UNFINAL: u64 = 5;

const OWN: u64 = 6;

const YES: u64 = 7;

const READ_AT: u64 = 8;

const WRITE_AT: u64 = 9;

const ACCEPTED: u64 = 10;

const NO: u64 = 11;

// The number of a kind and three values: 16 bits for each, the kind lowest.
fn pack(kind: u64, first: u64, second: u64, third: u64) -> u64
    requires { Small (packed (kind with first and second then third)) }
    ensures { result ≡ packed (kind with first and second then third) }
{
    kind + 65536 * (first + 65536 * (second + 65536 * third))
}

// The number of a refusal.
fn pack_refused(refusal: Refusal) -> u64
    requires { Small (packed (refused_numbers refusal)) }
    ensures { result ≡ packed (refused_numbers refusal) }
{
    let Refusal(number, place) = refusal;
    pack(REFUSED, u64::from(number), place as u64, 0)
}

// The number of a fault.
fn pack_fault(fault: Fault) -> u64
    requires { Small (packed (fault_numbers fault)) }
    ensures { result ≡ packed (fault_numbers fault) }
{
    match fault {
        Fault::Own(k) => pack(OWN, k as u64, 0, 0),
        Fault::Aborted(k) => pack(ABORTED, k as u64, 0, 0),
        Fault::Unfinal(k) => pack(UNFINAL, k as u64, 0, 0),
    }
}

// The number of what the clean verdict answers.
pub(crate) fn pack_clean(answer: Result<Cleanness, Refusal>) -> u64
    requires { Small (packed (clean_numbers answer)) }
    ensures { result ≡ packed (clean_numbers answer) }
{
    match answer {
        Err(refusal) => pack_refused(refusal),
        Ok(clean) => match clean {
            Cleanness::Yes => pack(YES, 0, 0, 0),
            Cleanness::Unclean(fault) => pack_fault(fault),
        },
    }
}

// The number of a wrong read.
fn pack_read(k: usize, writer: Writer) -> u64
    requires { Small (packed (read_numbers k writer)) }
    ensures { result ≡ packed (read_numbers k writer) }
{
    match writer {
        Writer::Store => pack(READ_AT, k as u64, 0, 0),
        Writer::Committed(t, s) => pack(READ_AT, k as u64, u64::from(t), s as u64),
        Writer::Reader(t) => pack(READ_AT, k as u64, u64::from(t), 0),
    }
}

// The number of what the snapshot verdict answers.
pub(crate) fn pack_snapshot(answer: Result<Snapshot, Refusal>) -> u64
    requires { Small (packed (snapshot_numbers answer)) }
    ensures { result ≡ packed (snapshot_numbers answer) }
{
    match answer {
        Err(refusal) => pack_refused(refusal),
        Ok(snapshot) => match snapshot {
            Snapshot::Yes => pack(YES, 0, 0, 0),
            Snapshot::Read(k, writer) => pack_read(k, writer),
            Snapshot::Write(k, t) => pack(WRITE_AT, k as u64, u64::from(t), 0),
        },
    }
}

// The number of what a verdict with a witness answers, and "next".
pub(crate) fn pack_witness(answer: Result<Answer, Refusal>) -> u64
    requires { Small (packed (witness_numbers answer)) }
    ensures { result ≡ packed (witness_numbers answer) }
{
    match answer {
        Err(refusal) => pack_refused(refusal),
        Ok(judged) => match judged {
            Answer::Order(n) => pack(ORDER, n as u64, 0, 0),
            Answer::Cycle(n) => pack(CYCLE, n as u64, 0, 0),
            Answer::None => pack(NONE, 0, 0, 0),
            Answer::Unclean(fault) => pack_fault(fault),
        },
    }
}

// The number of a call that answers how many: steps that were read, bytes that were put, or members of a proposal.
pub(crate) fn pack_count(answer: Result<usize, Refusal>) -> u64
    requires { Small (packed (count_numbers answer)) }
    ensures { result ≡ packed (count_numbers answer) }
{
    match answer {
        Err(refusal) => pack_refused(refusal),
        Ok(n) => pack(ACCEPTED, n as u64, 0, 0),
    }
}

// The number of the live judge's answer to a call.
pub(crate) fn pack_live(answer: Result<(), Refusal>) -> u64
    requires { Small (packed (live_numbers answer)) }
    ensures { result ≡ packed (live_numbers answer) }
{
    match answer {
        Err(refusal) => pack_refused(refusal),
        Ok(()) => pack(ACCEPTED, 0, 0, 0),
    }
}

// The number of what the judge of a proposal answers.
pub(crate) fn pack_accepts(answer: Result<Acceptance, Refusal>) -> u64
    requires { Small (packed (accepts_numbers answer)) }
    ensures { result ≡ packed (accepts_numbers answer) }
{
    match answer {
        Err(refusal) => pack_refused(refusal),
        Ok(judged) => match judged {
            Acceptance::Yes => pack(YES, 0, 0, 0),
            Acceptance::No => pack(NO, 0, 0, 0),
        },
    }
}
