//! Symmetric auctions solved by the cut run over their reduced programs, whose cuts are Border's conditions. Its end is an
//! optimal mechanism of the auction.
#![tactic(auto)]

mod auction_cuts;
mod auction_end;
mod solving;

pub use auction_end::AuctionEnd;
pub use md_cut_runs::CutsError;
pub use solving::solve_auction;
