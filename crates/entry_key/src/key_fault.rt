//! What is wrong with a key.

/// The first fault of a key from the left. Places count from 0.
#[derive(Clone, Copy, Debug, PartialEq, Eq)]
pub enum KeyFault {
    /// The byte at this place is due as a letter, is no `:`, and is not greater than `,` and the letter before it.
    Order(usize),
    /// After `a`, `b` or `p` no comma stands at this place; or another value runs to the key's end, which is this
    /// place.
    NoComma(usize),
    /// The key ends where a letter or `:` is due.
    NoAddress,
}
