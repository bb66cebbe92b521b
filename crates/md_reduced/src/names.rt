//! The names of rows.
ghost use Rattle.std.specs.Prelude.{◌≡◌, ◌<◌, [], ◌∷◌, ◌++◌, pos, codes, length, slice_get, IfOk, OnOk};
ghost use Rattle.std.specs.Option.{ForSome};
ghost use Rattle.md_num.specs.WholeText.{text_of};
ghost use Rattle.md_mech.specs.RowName.{path};
ghost use Rattle.md_setting.specs.Auction.{value_count};
ghost use Rattle.md_reduced.specs.Conditions.{conditions_of, IsInside};
ghost use Rattle.md_lp.specs.Cuts.{AreCuts};
ghost use Rattle.md_reduced.specs.declared.condition.ReducedCondition.TheVariants.{Truth, Rational};
ghost use Rattle.md_reduced.specs.Names.{name_of};

use crate::condition::{ReducedCondition, condition_at};
use md_lp::Sets;
use md_num::{NoMemory, write_whole};
use md_setting::Auction;
use std::alloc::Global;

/// The name of a row of the reduced program: the kind of the condition, and then the values, or the set, that it speaks of,
/// joined by slashes. Nothing but want of memory is an error.
pub fn row_name(
    alloc: Global,
    auction: &Auction,
    cuts: &Sets,
    row: u32,
) -> Result<Vec<u8>, NoMemory>
    requires cuts { AreCuts (value_count auction.now) cuts.now }
    requires row { row < length (conditions_of (value_count auction.now) cuts.now) }
    ensures { IfOk result (λ name. ForSome (slice_get (conditions_of (value_count auction.now) cuts.now) row) (λ condition. name.items ≡ name_of auction.now condition)) }
{
    name(alloc, auction, condition_at(auction, cuts, row))
}

fn name(alloc: Global, auction: &Auction, condition: ReducedCondition) -> Result<Vec<u8>, NoMemory>
    requires { IsInside (value_count auction.now) condition }
    ensures { IfOk result (λ name. name.items ≡ name_of auction.now condition) }
{
    match condition {
        ReducedCondition::Truth { kind, other } => truth_name(alloc, auction, kind, other),
        ReducedCondition::Rational { kind } => rational_name(alloc, auction, kind),
        ReducedCondition::Cut { set } => cut_name(alloc, set),
    }
}

fn truth_name(alloc: Global, auction: &Auction, kind: u32, other: u32) -> Result<Vec<u8>, NoMemory>
    requires kind_in { kind < value_count auction.now }
    requires other_in { other < value_count auction.now }
    ensures { IfOk result (λ name. name.items ≡ name_of auction.now (Truth kind other)) }
{
    let mut name = Vec::from_slice(alloc, b"truth")?;
    push_number(&mut name, i128::from(auction.value(kind)))?;
    push_number(&mut name, i128::from(auction.value(other)))?;
    Ok(name)
}

fn rational_name(alloc: Global, auction: &Auction, kind: u32) -> Result<Vec<u8>, NoMemory>
    requires { kind < value_count auction.now }
    ensures { IfOk result (λ name. name.items ≡ name_of auction.now (Rational kind)) }
{
    let mut name = Vec::from_slice(alloc, b"rational")?;
    push_number(&mut name, i128::from(auction.value(kind)))?;
    Ok(name)
}

fn cut_name(alloc: Global, set: u32) -> Result<Vec<u8>, NoMemory>
    ensures { IfOk result (λ name. name.items ≡ path (codes "cut" ∷ text_of (pos set) ∷ [])) }
{
    let mut name = Vec::from_slice(alloc, b"cut")?;
    push_number(&mut name, i128::from(set))?;
    Ok(name)
}

// A slash and a number.
fn push_number(name: &mut Vec<u8>, x: i128) -> Result<(), NoMemory>
    ensures { OnOk result (name.new.items ≡ name.old.items ++ 47 ∷ text_of x) }
{
    name.push(b'/')?;
    write_whole(x, name)?;
    Ok(())
}
