//! The rows of an auction's reduced program with the cuts of an answer.
ghost use Rattle.std.specs.Prelude.{◌≡◌};
ghost use Rattle.md_setting.specs.Auction.{value_count};
ghost use Rattle.md_lp.specs.Cuts.{AreCuts};
ghost use Rattle.md_answer.specs.ReducedRows.{reduced_rows};

use md_lp::Sets;
use md_reduced::row_count;
use md_setting::Auction;

/// How many rows the auction's reduced program with the cuts has.
pub(crate) fn reduced_rows(auction: &Auction, cuts: &Sets) -> u32
    requires { AreCuts (value_count auction.now) cuts.now }
    ensures { result ≡ reduced_rows auction.now cuts.now }
{
    row_count(auction, cuts)
}
