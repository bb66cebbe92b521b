//! Direct mechanisms of general settings: their utilities, their worth, and which conditions they meet.
#![tactic(auto)]

mod auditing;
mod averages;
mod broken;
mod build;
mod condition;
mod gains;
mod mechanism;
mod names;
mod refusal;
mod utilities;

pub use auditing::audit;
pub use broken::Broken;
pub use condition::{Condition, condition_at};
pub use gains::worth;
pub use mechanism::Mechanism;
pub use names::row_name;
pub use refusal::MechRefusal;
pub use utilities::{chance, payment, utility};
