//! The two sides of a comparison, so that one walk serves both.
/// A side of a comparison.
#[derive(Clone, Copy, PartialEq, Eq, Debug)]
pub(crate) enum Side {
    /// The first term.
    Left,
    /// The second term.
    Right,
}
