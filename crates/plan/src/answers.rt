// What the judge of a proposal says. It is one type, used by the code and by the statements alike.

// Whether a proposal will do.
#[derive(Clone, Copy)]
pub enum Acceptance {
    Yes,
    No,
}
