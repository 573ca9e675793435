//! Where a statement belongs on the path of a view.
ghost use Rattle.std.specs.Prelude.{◌≡◌, if◌then◌else◌};
ghost use Rattle.dep_sets.specs.Assumptions.{contains_assumption};
ghost use Rattle.case_view.specs.Views.{owner_on};

use dep_sets::{Assumption, Deps};

/// The node below where its assumption is one of these, else the node `at`.
fn deeper(deps: &Deps, assumption: Assumption, below: u32, at: u32) -> u32
    ensures { result ≡ (if contains_assumption deps.now assumption then below else at) }
{
    if deps.contains(assumption) { below } else { at }
}

/// The deepest node of the path whose assumption is one of these; else the root. The path has one node more than it has
/// assumptions.
pub fn owner_on(nodes: &[u32], path: &[Assumption], deps: &Deps) -> u32
    ensures { result ≡ owner_on nodes.now path.now deps.now }
{
    if nodes.is_empty() {
        return 0;
    }
    let mut owner = nodes[0];
    for k in 0..path.len().min(nodes.len() - 1) {
        owner = deeper(deps, path[k], nodes[k + 1], owner);
    }
    owner
}
