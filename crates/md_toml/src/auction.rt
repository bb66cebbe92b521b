//! What a document says of an auction.
ghost use Rattle.std.specs.Prelude.{ℤ, pos};
ghost use Rattle.toml.specs.View.{table_view};
ghost use Rattle.md_toml.specs.AuctionText.{said_auction, auction_in};
ghost use Rattle.md_toml.specs.Reading.{Gives};
ghost use Rattle.md_toml.specs.Values.{integer_in, defaulted};

use crate::known::has_auction_keys;
use crate::values::{number_at, read_integer, read_integers, value_at};
use crate::{Key, SettingRefusal};
use std::alloc::Global;
use toml::Table;

/// An auction as written, before anything of it is checked.
#[derive(Drop)]
pub(crate) struct RawAuction {
    pub(crate) bidders: i64,
    pub(crate) values: Vec<i64>,
    pub(crate) weights: Vec<i64>,
    pub(crate) revenue: i64,
    pub(crate) welfare: i64,
    pub(crate) keep: i64,
}

pub(crate) fn read_auction(alloc: Global, members: &Table) -> Result<RawAuction, SettingRefusal>
    ensures { Gives said_auction result (auction_in (table_view members.now)) }
{
    let bidders = read_integer(Key::Bidders, value_at(members, Key::Bidders)?)?;
    let values = read_integers(alloc, Key::Values, value_at(members, Key::Values)?)?;
    let weights = read_integers(alloc, Key::Weights, value_at(members, Key::Weights)?)?;
    let revenue = number_at(members, Key::Revenue, 1)?;
    let welfare = number_at(members, Key::Welfare, 0)?;
    let keep = number_at(members, Key::Keep, 0)?;
    if !has_auction_keys(members) {
        return Err(SettingRefusal::UnknownKey);
    }
    Ok(RawAuction {
        bidders,
        values,
        weights,
        revenue,
        welfare,
        keep,
    })
}
