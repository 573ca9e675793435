//! The journal of events over a tree of cases: its types, what it says, which event may come next, and laws.
//!
//! `specs/Journal.antt` has the ledger of steps, `specs/Paths.antt` the tree, `specs/Facts.antt` what is listed, live
//! and chosen at a node, `specs/Picking.antt` and `specs/Ending.antt` what is chosen next and why proving ended,
//! `specs/Legal.antt` which event may come after a journal, and `specs/Closing.antt` where an empty clause stands that
//! closes a node. The files of `specs/` whose names end in `Laws` have laws over legal journals with their proofs, and
//! no definitions that a reader must believe; `specs/ExampleLaws.antt` has small journals that are legal.
#![tactic(auto)]

mod branch;
mod event;

pub use branch::Branch;
pub use event::{End, Entry, Event, Limits, count_of, subject};
