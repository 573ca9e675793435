//! Laws about the definitions: each is a function that does nothing when it runs, and whose contract is the law.

mod unifiers;

pub use unifiers::{steps_lead_to_unifier, unifier_is_most_general};
