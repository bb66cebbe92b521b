//! What is told of the best deterministic mechanism of a setting.
use crate::tree::Tree;
use md_lp::{Path, Wide};
use md_mech::Mechanism;
use md_num::{Frac, Nums};

/// The best deterministic mechanism of a setting, or why there is none.
#[derive(Drop)]
pub enum DetAnswer {
    /// A mechanism whose lotteries are each on one outcome, with its value, and a search tree whose leaves show that no other one
    /// is better.
    Optimal {
        value: Frac,
        mechanism: Mechanism,
        tree: Tree,
    },
    /// A search tree whose leaves show that no admissible mechanism is deterministic.
    Infeasible {
        tree: Tree,
    },
    /// A deterministic mechanism, and payments that may be added to it again and again, with a gain each time: by the rank of the
    /// profile, then by agent; all 0 where payments are off.
    Unbounded {
        mechanism: Mechanism,
        ray: Nums,
    },
    /// The program of the node with these fixed pairs of a rank and an outcome has no path of narrow bases: the forward path to
    /// its first wide basis, and the backward one.
    TooWide {
        fixed: Path,
        first: Wide,
        second: Wide,
    },
}
