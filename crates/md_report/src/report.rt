//! What is told of a mechanism.

use crate::deficit::Deficit;
use crate::type_numbers::TypeNumbers;
use crate::worst::Worst;
use md_num::Frac;

/// What a mechanism does, and how far it is from the conditions of its setting. All fractions are in least terms.
#[derive(Drop)]
pub struct Report {
    /// The expected objective.
    pub value: Frac,
    /// The expected payments of all agents.
    pub revenue: Frac,
    /// The expected utilities of all agents, payments left out.
    pub welfare: Frac,
    /// What each type gets and pays, by agent, then by type.
    pub types: Vec<TypeNumbers>,
    /// By agent the report by which it gains most, where it has more than one type.
    pub gains: Vec<Option<Worst>>,
    /// By agent where it misses most of what it has outside, where the setting asks that it misses nothing.
    pub losses: Vec<Option<Worst>>,
    /// Where least is paid, where the setting allows no deficit.
    pub deficit: Option<Deficit>,
    /// The rows of the conditions on truth, rationality and the deficit that hold with equality, ascending.
    pub tight: Vec<u32>,
}
