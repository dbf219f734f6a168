//! Plans of replay: in which order the nodes of the merged tree are computed, and for which of
//! them a snapshot is held. A plan is told over the costs of the nodes; this crate says what a
//! plan costs, how many blocks it holds at most, which operations carry it out, and how it is
//! written.
#![tactic(auto)]

mod budget;
mod costs;
mod offer;
mod operations;
mod plan;
mod row;
mod text;

pub use budget::{Budget, price};
pub use costs::{Costs, Rows};
pub use offer::{Fees, Offer, is_worth_holding, local, place_of_last};
pub use operations::{Operation, Operations};
pub use plan::{Entries, Entry, Plan};
pub use row::{Reach, Row};
pub use text::write_plan;
