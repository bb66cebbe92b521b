//! Border's conditions on the interim odds of a symmetric auction, which the odds of every mechanism meet, and what odds
//! and payments are worth (Border, "Implementation of Reduced Form Auctions", Econometrica 1991).
//!
//! A set of kinds of values is a number: the bit of kind j, counted from 0, is 1 where the set has it. The bidders whose
//! values are in a set cannot win more often than there is such a bidder. How often they would win by the odds are the
//! demands of the set, how often there is such a bidder is its right side, and what the demands are above the right side
//! is its excess.
#![tactic(auto)]

mod demands;
mod interim;
mod sides;
mod worth;

pub use demands::{demand, excess, weight_of_all};
pub use interim::Interim;
pub use sides::{has_kind, right_side, right_side_for};
pub use worth::{auction_worth, surplus};
