//! Threshold auctions of several units: what each bidder has at a profile of reports and a draw. The highest pools of values win, the
//! bidders of a pool that is split win alike, and only winners pay.
#![tactic(auto)]

mod amount;
mod awarding;
mod chances;
mod counts;
mod draws;
mod expected;
mod finding;
mod price;
mod price_list;
mod prices;
mod refusal;
mod shares;
mod threshold;

pub use awarding::award_units;
pub use finding::threshold_units;
pub use price::Price;
pub use price_list::one_unit_prices;
pub use refusal::AwardRefusal;
pub use shares::{Award, Share};
pub use threshold::Threshold;
