//! Whether the program of conditions can be made.
ghost use Rattle.std.specs.Prelude.{◌≡◌, ◌<◌, ◌≤◌, ◌&&◌, length};
ghost use Rattle.std.specs.List.{list_all};
ghost use Rattle.md_math.specs.Sizes.{IsWithin};
ghost use Rattle.md_space.specs.Profiles.{profile_count};
ghost use Rattle.md_setting.specs.Meaning.{sizes_of};
ghost use Rattle.md_mech.specs.Accepted.{number_limit};
ghost use Rattle.md_require.specs.Amounts.{amounts_of};
ghost use Rattle.md_require.specs.Limits.{AreConditionsFor};
ghost use Rattle.md_require.specs.Named.{IsInside, amounts_at, named};
ghost use Rattle.md_require.specs.Places.{IsIn};
ghost use Rattle.md_require.specs.RequireQuestion.{require_rows};
ghost use Rattle.md_conditions_text.specs.Known.{IsTold};
ghost use Rattle.md_conditions_text.specs.Narrow.{has_narrow_chances, has_narrow_parts, has_narrow_pays, has_narrow_right, has_narrow_row, has_narrow_rows, is_narrow, whole_by, wide_place};

use crate::kind::Kind;
use md_num::product;
use md_require::{Amount, Condition, Measured, amount_at, chance_part, pay_part, whole};
use md_setting::Setting;

/// The greatest size of a number of a row, before it is divided.
const MOST: u128 = 17_592_186_044_416;

/// Whether the numbers of each row of a condition are small enough.
pub(crate) fn has_narrow_rows(setting: &Setting, condition: &Condition) -> bool
    requires { IsTold setting.now condition.now }
    ensures { result ≡ has_narrow_rows setting.now condition.now }
{
    for rank in 0..setting.space().profiles() {
        if !has_narrow_rows_at(setting, condition, rank) {
            return false;
        }
    }
    true
}

// Whether those of the row that it has at a rank are, if it has one there.
fn has_narrow_rows_at(setting: &Setting, condition: &Condition, rank: u32) -> bool
    requires told { IsTold setting.now condition.now }
    requires rank_in { rank < profile_count (sizes_of setting.now) }
    ensures { result ≡ list_all (has_narrow_row setting.now condition.now) (amounts_at setting.now condition.now.measured rank) }
{
    match amount_at(setting, condition.measured, rank) {
        Some(amount) => has_narrow_row(setting, condition, amount),
        None => true,
    }
}

// Whether the numbers of the row of an amount are small enough.
fn has_narrow_row(setting: &Setting, condition: &Condition, amount: Amount) -> bool
    requires told { IsTold setting.now condition.now }
    requires inside { IsInside setting.now amount }
    ensures { result ≡ has_narrow_row setting.now condition.now (named setting.now amount) }
{
    has_narrow_parts(setting, condition.den, amount)
        && is_narrow(product(condition.num, whole(setting, amount)))
}

// Whether those of its left side are.
fn has_narrow_parts(setting: &Setting, den: i128, amount: Amount) -> bool
    requires den { IsWithin number_limit den }
    requires inside { IsInside setting.now amount }
    ensures { result ≡ has_narrow_parts setting.now den (named setting.now amount) }
{
    for rank in 0..setting.space().profiles() {
        if !are_narrow_at(setting, den, amount, rank) {
            return false;
        }
    }
    true
}

// Whether those of the chances and of the payments of a rank are.
fn are_narrow_at(setting: &Setting, den: i128, amount: Amount, rank: u32) -> bool
    requires den { IsWithin number_limit den }
    requires inside { IsInside setting.now amount }
    requires rank_in { rank < profile_count (sizes_of setting.now) }
    ensures { result ≡ (has_narrow_chances setting.now den (named setting.now amount) rank && has_narrow_pays setting.now den (named setting.now amount) rank) }
{
    has_narrow_chances(setting, den, amount, rank) && has_narrow_pays(setting, den, amount, rank)
}

// Whether those of the chances of a rank are.
fn has_narrow_chances(setting: &Setting, den: i128, amount: Amount, rank: u32) -> bool
    requires den { IsWithin number_limit den }
    requires inside { IsInside setting.now amount }
    requires rank_in { rank < profile_count (sizes_of setting.now) }
    ensures { result ≡ has_narrow_chances setting.now den (named setting.now amount) rank }
{
    for outcome in 0..setting.outcomes() {
        if !is_narrow(product(den, chance_part(setting, amount, rank, outcome))) {
            return false;
        }
    }
    true
}

// Whether those of the payments of a rank are.
fn has_narrow_pays(setting: &Setting, den: i128, amount: Amount, rank: u32) -> bool
    requires den { IsWithin number_limit den }
    requires inside { IsInside setting.now amount }
    requires rank_in { rank < profile_count (sizes_of setting.now) }
    ensures { result ≡ has_narrow_pays setting.now den (named setting.now amount) rank }
{
    for agent in 0..setting.space().agents() {
        if !is_narrow(product(den, pay_part(setting, amount, rank, agent))) {
            return false;
        }
    }
    true
}

/// The field that makes a number of the rows of a condition too large.
pub(crate) fn wide_place(setting: &Setting, kind: Kind, condition: &Condition) -> u64
    requires { IsTold setting.now condition.now }
    ensures { result ≡ wide_place setting.now kind condition.now }
{
    let measures = kind.measures() as u64;
    if has_narrow_right(setting, condition) {
        measures + 4
    } else {
        measures + 3
    }
}

// Whether the right sides of the rows of a condition are small enough.
fn has_narrow_right(setting: &Setting, condition: &Condition) -> bool
    requires { IsTold setting.now condition.now }
    ensures { result ≡ has_narrow_right setting.now condition.now }
{
    is_narrow(product(condition.num, whole_by(setting, condition.measured)))
}

// The weight of all profiles, where an average over them is measured.
fn whole_by(setting: &Setting, measured: Measured) -> i128
    ensures value { result ≡ whole_by setting.now measured }
    ensures size { IsWithin 1000000 result }
{
    match measured {
        Measured::Revenue
        | Measured::Welfare
        | Measured::Utility { .. }
        | Measured::Chance { .. } => setting.total(),
        Measured::ChanceAt { .. } | Measured::Payment { .. } | Measured::PaymentAs { .. } => 1,
    }
}

// Whether a number is small enough.
fn is_narrow(number: i128) -> bool
    ensures { result ≡ is_narrow number }
{
    number.unsigned_abs() <= MOST
}

/// How many rows a measure has: one for each amount that it is about.
pub(crate) fn row_count(setting: &Setting, measured: Measured) -> u32
    requires { IsIn setting.now measured }
    ensures count { result ≡ length (amounts_of setting.now measured) }
    ensures few { result ≤ 1024 }
{
    let mut count = 0;
    for rank in 0..setting.space().profiles() {
        count += u32::from(amount_at(setting, measured, rank).is_some());
    }
    count
}

/// How many rows a setting and conditions have together.
pub fn rows_of(setting: &Setting, conditions: &[Condition]) -> u32
    requires { AreConditionsFor setting.now conditions.now }
    ensures count { result ≡ require_rows setting.now conditions.now }
    ensures few { result ≤ 4096 }
{
    let mut rows = setting.rows();
    for condition in conditions {
        rows += row_count(setting, condition.measured);
    }
    rows
}
