//! What a setting file holds.

use crate::{Auction, GroupedAuction, Setting};

/// The setting of a file, by its kind.
#[derive(Drop)]
pub enum SettingFile {
    /// A setting with agents and outcomes of its own.
    General(Setting),
    /// A symmetric auction of one item.
    Auction(Auction),
    /// An auction with groups of bidders who differ.
    Bidders(GroupedAuction),
}
