//! Settings of mechanism design: agents, types, outcomes, weights and utilities.
#![tactic(auto)]

mod auction;
mod auction_check;
mod auction_limits;
mod check;
mod counts;
mod file;
mod grouped;
mod grouped_check;
mod grouped_limits;
mod grouped_weights;
mod kinds;
mod lookup;
mod names;
mod numbering;
mod range;
mod raw;
mod refusal;
mod rows;
mod setting;
mod shape;
mod values;
mod weights;

pub use auction::Auction;
pub use file::SettingFile;
pub use grouped::GroupedAuction;
pub use kinds::{Rational, Truth};
pub use raw::{RawAgent, RawGroup, RawGroupedAuction, RawSetting};
pub use refusal::BuildRefusal;
pub use setting::Setting;
