//! The auction that a number stands for.
ghost use Rattle.std.specs.Prelude.{◌≡◌, ◌≤◌, ◌<◌, IfOk};
ghost use Rattle.md_setting.specs.Auction.{auction_of};
ghost use Rattle.md_gen.specs.GeneratedAuction.{step_at, values_of, weights_of, generated_auction};

use crate::draws::draw;
use crate::refusal::out_of_memory;
use md_num::NoMemory;
use md_setting::Auction;
use std::alloc::Global;

/// Four bidders with six values, of which the designer wants the payments.
pub(crate) fn auction(alloc: Global, number: u32) -> Result<Auction, NoMemory>
    ensures { IfOk result (λ auction. auction ≡ auction_of (generated_auction number)) }
{
    let values = values(alloc, number)?;
    let weights = weights(alloc, number)?;
    match Auction::new(alloc, 4, &values, &weights, 1, 0, 0) {
        Ok(auction) => Ok(auction),
        Err(refusal) => Err(out_of_memory(refusal)),
    }
}

// The values, each above the one before.
fn values(alloc: Global, number: u32) -> Result<Vec<i64>, NoMemory>
    ensures { IfOk result (λ values. values.items ≡ values_of number) }
{
    let mut values = Vec::new(alloc);
    let mut value = step(number, 0);
    values.push(i64::from(value))?;
    for kind in 0..5 {
        value += step(number, kind + 1);
        values.push(i64::from(value))?;
    }
    Ok(values)
}

// How far a value is above the one before, or the first above 0.
fn step(number: u32, kind: u32) -> u32
    requires { kind < 6 }
    ensures value { result ≡ step_at number kind }
    ensures small { result ≤ 5 }
{
    1 + draw(number, kind + 1) % 5
}

// The weights of the values.
fn weights(alloc: Global, number: u32) -> Result<Vec<i64>, NoMemory>
    ensures { IfOk result (λ weights. weights.items ≡ weights_of number) }
{
    let mut weights = Vec::new(alloc);
    for kind in 0..6 {
        weights.push(i64::from(1 + draw(number, kind + 7) % 3))?;
    }
    Ok(weights)
}
