//! The certificate that interim odds and payments with multipliers are.
ghost use Rattle.std.specs.Prelude.{◌≡◌, ◌++◌, map, IfOk, OnOk};
ghost use Rattle.md_math.specs.Sizes.{IsWithin, AllWithin};
ghost use Rattle.md_mech.specs.Accepted.{number_limit};
ghost use Rattle.md_reduced.specs.Averages.{plus_part, minus_part};
ghost use Rattle.md_claims.specs.AuctionCertificates.{auction_certificate, point_of};

use crate::lists::copy_bound;
use md_border::Interim;
use md_cert::{Bound, Certificate};
use md_num::{NoMemory, Nums};
use std::alloc::Global;

/// The point of interim odds and payments with multipliers.
pub fn auction_certificate(
    alloc: Global,
    interim: &Interim,
    bound: &Bound,
) -> Result<Certificate, NoMemory>
    requires { AllWithin number_limit interim.now.pays }
    ensures { IfOk result (λ certificate. certificate ≡ auction_certificate interim.now bound.now) }
{
    Ok(Certificate::Optimal {
        den: interim.den,
        point: point_of(alloc, interim)?,
        bound: copy_bound(alloc, bound)?,
    })
}

// The odds, then the plus parts of the payments, then their minus parts.
fn point_of(alloc: Global, interim: &Interim) -> Result<Nums, NoMemory>
    requires { AllWithin number_limit interim.now.pays }
    ensures { IfOk result (λ point. point ≡ point_of interim.now) }
{
    let mut point = Nums::from_slice(alloc, interim.odds.as_slice())?;
    push_plus_parts(&interim.pays, &mut point)?;
    push_minus_parts(&interim.pays, &mut point)?;
    Ok(point)
}

fn push_plus_parts(pays: &Nums, point: &mut Nums) -> Result<(), NoMemory>
    requires { AllWithin number_limit pays.now }
    ensures { OnOk result (point.new ≡ point.old ++ map plus_part pays.now) }
{
    for pay in pays.as_slice() {
        point.push(plus_part(*pay))?;
    }
    Ok(())
}

fn push_minus_parts(pays: &Nums, point: &mut Nums) -> Result<(), NoMemory>
    requires { AllWithin number_limit pays.now }
    ensures { OnOk result (point.new ≡ point.old ++ map minus_part pays.now) }
{
    for pay in pays.as_slice() {
        point.push(minus_part(*pay))?;
    }
    Ok(())
}

fn plus_part(number: i128) -> i128
    requires { IsWithin number_limit number }
    ensures { result ≡ plus_part number }
{
    number.max(0)
}

fn minus_part(number: i128) -> i128
    requires { IsWithin number_limit number }
    ensures { result ≡ minus_part number }
{
    (-number).max(0)
}
