//! The top call of the prover: from words and bytes to an answer and its text.
#![tactic(auto)]

mod answers;
mod delivering;
mod proving;
mod top;
mod words;

pub use answers::Answer;
pub use top::{Report, run_alone};
