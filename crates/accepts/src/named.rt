// The proposal that a list like `2,5` names.
use input::number_of;
use verdict::Transaction;

// Puts a number behind the count that stand in a proposal. Where there is no room, the list has more numbers than there are transactions, and
// so names one twice: the first is put into the last place, too, so that the proposal names one twice as well, and is turned away for it.
fn put(members: &mut [u16; Transaction::COUNT], count: usize, number: u16) {
    if count < Transaction::COUNT {
        members[count] = number;
        return;
    }
    members[Transaction::COUNT - 1] = members[0];
}

// The proposal of the transactions that a list names, in its order; `-` names nobody. None where it is not such a list.
pub(crate) fn propose(list: &[u8]) -> Option<[u16; Transaction::COUNT]> {
    let mut members = [0u16; Transaction::COUNT];
    if list == b"-".as_slice() {
        return Some(members);
    }
    for (count, part) in list.split(|byte| *byte == b',').enumerate() {
        put(&mut members, count, number_of(part, Transaction::LIMIT)?);
    }
    Some(members)
}
