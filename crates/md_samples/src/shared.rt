//! A setting that tests share.

use crate::sample::{SampleAgent, setting};
use md_setting::RawSetting;
use std::alloc::{AllocError, Global};

/// A seller who keeps or sells an item, and a buyer of two types: the low one has value 1 and weight 1, and the high one
/// this value and weight.
pub fn sale(alloc: Global, value: i64, weight: i64) -> Result<RawSetting, AllocError> {
    sale_of(alloc, &[1, weight], &[&[0, 1], &[0, value]])
}

fn sale_of<'a>(
    alloc: Global,
    weights: &'a [i64],
    utility: &'a [&'a [i64]],
) -> Result<RawSetting, AllocError> {
    let buyer = SampleAgent {
        name: "buyer",
        types: &["low", "high"],
        weights,
        outside: &[0, 0],
        utility,
    };
    setting(alloc, &[buyer], &["keep", "sell"], &[0, 0])
}
