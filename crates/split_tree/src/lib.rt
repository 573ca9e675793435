//! The table: a legal journal over a tree of cases, with what is computed from it.
//!
//! What a journal says, and which event may come next, is defined in `case_journal`. `specs/Fields.antt` says what is
//! true of a table's fields, and `specs/Caches.antt` what it keeps beside its journal.
#![tactic(auto)]

mod caches;
mod table;

pub use table::Table;
