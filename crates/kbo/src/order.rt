//! The four ways in which two terms may stand to each other.
/// How two terms stand in the order (Knuth and Bendix 1970).
#[derive(Clone, Copy, PartialEq, Eq, Debug)]
pub enum Order {
    /// The first is greater.
    Greater,
    /// The second is greater.
    Less,
    /// They are the same term.
    Equal,
    /// They differ, and neither is greater.
    Incomparable,
}
