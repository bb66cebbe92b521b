//! What an answer file may say.

use md_border::Interim;
use md_cert::Bound;
use md_expost::Masses;
use md_lp::{Sets, Wide};
use md_mech::Mechanism;
use md_num::{Frac, Nums};

/// An answer about a general setting or an auction.
#[derive(Drop)]
pub enum Answer {
    /// A mechanism, of which nothing is claimed.
    Table(Mechanism),
    /// A mechanism with its value, and multipliers of the setting's rows that show that none has a greater one.
    Optimal {
        value: Frac,
        mechanism: Mechanism,
        bound: Bound,
    },
    /// Multipliers of the setting's rows that show that no mechanism meets them.
    Infeasible {
        face: Nums,
    },
    /// A mechanism, and payments that may be added to it again and again with a gain each time: by the rank of the
    /// profile, then by agent; all 0 where payments are off.
    Unbounded {
        mechanism: Mechanism,
        ray: Nums,
    },
    /// Interim odds and payments of an auction with their value, masses over the same denominator that have these odds,
    /// and multipliers of the rows of the reduced program with the cuts, which show that no mechanism has a greater value.
    /// It is never an answer about a general setting, and the four answers before it are never about an auction.
    AuctionOptimal {
        value: Frac,
        interim: Interim,
        masses: Masses,
        cuts: Sets,
        bound: Bound,
    },
    /// Where the forward path becomes too wide, and where the backward path does. The cuts are the rows that were
    /// added to the program: none for a general setting. An answer without a second part is one of the first version
    /// of the format: it is still read and written, and is never the answer of `solve`.
    TooWide {
        cuts: Sets,
        first: Wide,
        second: Option<Wide>,
    },
}
