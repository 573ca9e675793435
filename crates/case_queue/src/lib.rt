//! The queue of the clauses that may be chosen next at one node, so that a choice costs a logarithm.
//!
//! `specs/Queues.antt` says what a queue holds. The pick rule is that of `case_journal`, `specs/Picking.antt`.
#![tactic(auto)]

mod queue;

pub use queue::CaseQueue;
