//! How a node hangs in the tree of cases.
use dep_sets::Assumption;

/// How a node other than the root hangs in the tree.
#[derive(Clone, Copy, Debug)]
pub struct Branch {
    /// The node that was split.
    pub parent: u32,
    /// The side of the split that is assumed here.
    pub assumed: Assumption,
}
