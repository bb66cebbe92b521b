//! What the agent that gets least gets of a mechanism that is not the fairest.
use md_fair::least;
use md_mech::Mechanism;
use md_num::{Frac, Nums};
use md_samples::{SampleAgent, setting};
use md_setting::{RawSetting, Setting};
use std::alloc::{AllocError, Global};
use std::test::Fail;

// An agent of one type.
fn heir<'a>(name: &'a str, utility: &'a [&'a [i64]]) -> SampleAgent<'a> {
    SampleAgent {
        name,
        types: &["t"],
        weights: &[1],
        outside: &[0],
        utility,
    }
}

// A good that is worth 2 to the first agent and 1 to the second.
fn split(alloc: Global) -> Result<RawSetting, AllocError> {
    let heirs = [heir("one", &[&[2, 0]]), heir("two", &[&[0, 1]])];
    setting(alloc, &heirs, &["first", "second"], &[0, 0])
}

// The least where the chances of the two outcomes and what the agents pay are these over a denominator.
fn least_of(setting: &Setting, den: i128, chances: Nums, pays: Nums) -> Option<Frac> {
    match Mechanism::new(setting, den, chances, pays) {
        Ok(mechanism) => Some(least(setting, &mechanism)),
        Err(_) => None,
    }
}

// A denominator, the chances, the payments, and the least.
static CASES: [(i128, [i128; 2], [i128; 2], Frac); 3] = [
    // The good goes to the first agent, and the second one has nothing.
    (1, [1, 0], [0, 0], Frac { num: 0, den: 1 }),
    // The first one has the good half of the time, and pays 3/2 of the 1 that it has.
    (2, [1, 1], [3, 0], Frac { num: -1, den: 2 }),
    // The first one has the good once in three times, and the second one else: both get 2/3.
    (3, [1, 2], [0, 0], Frac { num: 2, den: 3 }),
];

fn first_other(alloc: Global, setting: &Setting) -> Result<Option<usize>, Fail> {
    for (place, (den, chances, pays, wanted)) in CASES.iter().enumerate() {
        let chances = Nums::from_slice(alloc, chances)?;
        let pays = Nums::from_slice(alloc, pays)?;
        if least_of(setting, *den, chances, pays) != Some(*wanted) {
            return Ok(Some(place));
        }
    }
    Ok(None)
}

#[test]
fn the_least_may_be_that_of_either(rt: HostRuntime) -> Result<(), Fail> {
    let alloc = rt.alloc();
    let raw = split(alloc)?;
    match Setting::new(alloc, raw) {
        Ok(setting) => assert_eq!(rt; first_other(alloc, &setting)?, None),
        Err(_) => return Err("no setting")?,
    }
    Ok(())
}
