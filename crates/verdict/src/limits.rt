// Transactions, objects and logs, each with its limit and a constructor that refuses what is beyond it.
ghost use Rattle.std.specs.Prelude.{◌≡◌};
ghost use Rattle.verdict.specs.Limits.{make_transaction, make_object, make_log};

// A transaction, by its number.
#[derive(Clone, Copy)]
pub struct Transaction {
    pub number: u16,
}

impl Transaction {
    pub const LIMIT: u16 = 128;

    // How many transactions there are. The order handed to "next" has a number for each of them.
    pub const COUNT: usize = Transaction::LIMIT as usize;

    // How many numbers a witness has: an entry of three for each of them.
    pub const WITNESS: usize = 3 * Transaction::COUNT;

    // How many entries a table has that has one for each transaction and one for writer 0.
    pub const TABLE: usize = Transaction::COUNT + 1;

    // How many committed transactions the exact search takes.
    pub const SEARCHED: usize = 8;

    // How many entries a table has that has one for each of these and each object.
    pub const PAIRS: usize = Transaction::TABLE * Object::TABLE;

    // The transaction of this number, which is 1 to the limit.
    pub fn of(number: u16) -> Option<Transaction>
        ensures { result ≡ make_transaction number }
    {
        if number < 1 {
            return None;
        }
        if Transaction::LIMIT < number {
            return None;
        }
        Some(Transaction { number })
    }
}

// An object, by its number.
#[derive(Clone, Copy)]
pub struct Object {
    pub number: u16,
}

impl Object {
    pub const LIMIT: u16 = 64;

    // How many entries a table has that has one for each object.
    pub const TABLE: usize = Object::LIMIT as usize;

    // The object of this number, which is below the limit.
    pub fn of(number: u16) -> Option<Object>
        ensures { result ≡ make_object number }
    {
        if number < Object::LIMIT {
            return Some(Object { number });
        }
        None
    }
}

// A log, by how many steps it has.
#[derive(Clone, Copy)]
pub struct Log {
    pub steps: usize,
}

impl Log {
    pub const LIMIT: usize = 1024;

    // How many bytes the work area of a verdict over a log has.
    pub const WORK: usize = 16384;

    // A log of so many steps, which are at most the limit.
    pub fn of(steps: usize) -> Option<Log>
        ensures { result ≡ make_log steps }
    {
        if steps <= Log::LIMIT {
            return Some(Log { steps });
        }
        None
    }
}
