// The transactions that a list like `1,3` names.
use input::number_of;
use verdict::Transaction;

// The marks of the transactions that a list names; None where it is not such a list.
pub(crate) fn mark_named(list: &[u8]) -> Option<[u8; Transaction::TABLE]> {
    let mut marks = [0u8; Transaction::TABLE];
    for part in list.split(|byte| *byte == b',') {
        let number = number_of(part, Transaction::LIMIT)?;
        marks[usize::from(number)] = 1;
    }
    Some(marks)
}
