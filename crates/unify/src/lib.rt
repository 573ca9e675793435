//! Unifiers and matchers of terms.
#![tactic(auto)]

mod below;
mod bindings;
mod equations;
mod fitting;
mod matching;
mod occurring;
mod triangular;
mod unifying;

pub use below::{has_variables_below, have_variables_below};
pub use bindings::Bindings;
pub use fitting::{all_cover, all_fit, covers, fits};
pub use matching::{match_arguments, match_into, match_term, match_terms};
pub use unifying::{unify, unify_arguments, unify_arguments_bound, unify_bound};
