//! What a worker sees of the case on which it works: a copy that is made once a case, and brought up to the journal by
//! its new events alone.
//!
//! `specs/Views.antt` says what a view has, and for which node and journal it stands; `specs/Walks.antt` how it goes on
//! by an event.
#![tactic(auto)]

mod filed;
mod kept;
mod laws;
mod trail;
mod view;
mod walking;

pub use kept::{Case, Kept, Mark};
pub use laws::{paths_give_the_owners, paths_give_the_splits, views_have_the_clauses};
pub use trail::move_to_held;
pub use view::CaseView;
pub use walking::is_among;
