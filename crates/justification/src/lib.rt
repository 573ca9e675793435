//! Notes that justify that a clause is hidden: the test of a given note, and the laws that its hidden clause follows from
//! its reasons and that notes compose.
//!
//! The crate `calculus` says in `specs/Notes.antt` which notes are justified; `specs/Hiding.antt` and `specs/Composing.antt`
//! have the words of the laws.
#![tactic(auto)]

mod editing;
mod justifying;
mod laws;
mod mapping;
mod subterms;

pub use justifying::justified;
pub use laws::{hidden_follows, hidden_follows_further, notes_compose};
