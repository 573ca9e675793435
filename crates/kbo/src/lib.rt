//! The order on terms, and the maximal and eligible places of a clause.
#![tactic(auto)]

mod comparing;
mod heads;
mod laws;
mod measuring;
mod order;
mod ordering;
mod places;
mod side;
mod tally;
mod view;
mod walking;

pub use comparing::{compare, compare_views};
pub use laws::order_is_stable;
pub use order::Order;
pub use places::{eligible, first_unsolved, maximal};
pub use view::View;
