//! The commands, each carried out over its files.
ghost use Rattle.std.specs.Prelude.{ℕ, List, Some};
ghost use Rattle.md_cli_words.specs.Orders.{asked};
ghost use Rattle.md_top.specs.Reply.{award_work, check_work, draw_work, find_work, iron_units_work, report_work, threshold_work, units_work, work_of};
ghost use Rattle.md_cli_driver.specs.Works.{IsCarriedOut};

use md_cli_best::{Determ, Drill, Fair, Find, FindFair, FindFrom, Make, Require, Solve};
use md_cli_driver::{Answered, NumberRefused, Refusal, of_none, of_one, of_two};
use md_cli_judge::{Audit, Check, CheckUnits, DetermCheck};
use md_cli_lp::{Replay, Rows};
use md_cli_sell::{Asym, Iron, IronUnits, ThresholdSale, Units};
use md_cli_tell::{Awarding, Draw, DrawUnits, Realise, Tell, TellUnits};
use md_cli_words::{Command, Order};
use md_num::Width;
use md_ports::Shelf;
use md_unit_tables::UnitNumber;
use std::alloc::Global;

/// Carries a command out.
pub(crate) fn run<F: Shelf>(
    alloc: Global,
    order: &Order<'_>,
    shelf: &mut F,
) -> Result<Answered, Refusal>
    ensures { IsCarriedOut (work_of (asked order.now)) order.now.setting.now order.now.second.now (F.content shelf.old) (F.faults shelf.old) (F.faults shelf.new) result }
{
    let Order {
        command,
        setting,
        second,
        width,
        profile,
        first_draw,
        number,
        ..
    } = *order;
    match command {
        Command::Audit => of_two(alloc, &Audit, setting, second, shelf),
        Command::Rows => of_one(alloc, &Rows, setting, shelf),
        Command::Check => check(alloc, order, shelf),
        Command::Solve => of_one(alloc, &Solve { width }, setting, shelf),
        Command::Replay => of_two(alloc, &Replay { width }, setting, second, shelf),
        Command::Realise => of_two(alloc, &Realise, setting, second, shelf),
        Command::Fair => of_one(alloc, &Fair { width }, setting, shelf),
        Command::Find => find(alloc, order.has_second, setting, second, shelf),
        Command::FindFair => of_one(alloc, &FindFair, setting, shelf),
        Command::Require => of_two(alloc, &Require, setting, second, shelf),
        Command::Asym => of_one(alloc, &Asym { width }, setting, shelf),
        Command::Units => sell_units(alloc, number, width, setting, shelf),
        Command::Threshold => sell_to_winners(alloc, number, setting, shelf),
        Command::Award => award(alloc, number, profile, first_draw, setting, shelf),
        Command::Determ => of_one(alloc, &Determ { width }, setting, shelf),
        Command::DetermCheck => of_two(alloc, &DetermCheck, setting, second, shelf),
        Command::Run => draw(alloc, order, shelf),
        Command::Report => report(alloc, order, shelf),
        Command::Iron => of_one(alloc, &Iron, setting, shelf),
        Command::IronUnits => iron_units(alloc, number, setting, shelf),
        Command::Make => of_none(alloc, &Make { number }),
        Command::Drill => of_none(alloc, &Drill { number }),
    }
}

// Judges what an answer claims, also one about so many units.
fn check<F: Shelf>(alloc: Global, order: &Order<'_>, shelf: &mut F) -> Result<Answered, Refusal>
    ensures { IsCarriedOut (check_work order.now.units) order.now.setting.now order.now.second.now (F.content shelf.old) (F.faults shelf.old) (F.faults shelf.new) result }
{
    match order.units {
        Some(number) => check_units(alloc, number, order.setting, order.second, shelf),
        None => of_two(alloc, &Check, order.setting, order.second, shelf),
    }
}

// Judges an answer about so many units. A number of them that may not be sold is refused before the setting is read.
fn check_units<F: Shelf>(
    alloc: Global,
    number: i128,
    setting: &str,
    second: &str,
    shelf: &mut F,
) -> Result<Answered, Refusal>
    ensures { IsCarriedOut (check_work (Some number)) setting.now second.now (F.content shelf.old) (F.faults shelf.old) (F.faults shelf.new) result }
{
    match UnitNumber::new(number) {
        Some(units) => of_two(alloc, &CheckUnits { units }, setting, second, shelf),
        None => of_none(alloc, &NumberRefused),
    }
}

// Finds the best mechanism of a setting, from a basis where a file of one is named.
fn find<F: Shelf>(
    alloc: Global,
    has_second: bool,
    setting: &str,
    second: &str,
    shelf: &mut F,
) -> Result<Answered, Refusal>
    ensures { IsCarriedOut (find_work has_second) setting.now second.now (F.content shelf.old) (F.faults shelf.old) (F.faults shelf.new) result }
{
    if has_second {
        of_two(alloc, &FindFrom, setting, second, shelf)
    } else {
        of_one(alloc, &Find, setting, shelf)
    }
}

// Draws an outcome from an answer at a profile, or who gets one of so many units.
fn draw<F: Shelf>(alloc: Global, order: &Order<'_>, shelf: &mut F) -> Result<Answered, Refusal>
    ensures { IsCarriedOut (draw_work order.now.units order.now.profile.now order.now.first_draw order.now.second_draw) order.now.setting.now order.now.second.now (F.content shelf.old) (F.faults shelf.old) (F.faults shelf.new) result }
{
    match order.units {
        Some(number) => {
            draw_units(
                alloc,
                number,
                order,
                order.first_draw,
                order.second_draw,
                shelf,
            )
        }
        None => {
            let command = Draw {
                profile: order.profile,
                first: order.first_draw,
                second: order.second_draw,
            };
            of_two(alloc, &command, order.setting, order.second, shelf)
        }
    }
}

// Draws who gets a unit. A number of them that may not be sold is refused before the setting is read.
fn draw_units<F: Shelf>(
    alloc: Global,
    number: i128,
    order: &Order<'_>,
    first: i128,
    second: i128,
    shelf: &mut F,
) -> Result<Answered, Refusal>
    ensures { IsCarriedOut (draw_work (Some number) order.now.profile.now first second) order.now.setting.now order.now.second.now (F.content shelf.old) (F.faults shelf.old) (F.faults shelf.new) result }
{
    match UnitNumber::new(number) {
        Some(units) => {
            let command = DrawUnits {
                units,
                profile: order.profile,
                first,
                second,
            };
            of_two(alloc, &command, order.setting, order.second, shelf)
        }
        None => of_none(alloc, &NumberRefused),
    }
}

// Tells what an answer does, also one about so many units.
fn report<F: Shelf>(alloc: Global, order: &Order<'_>, shelf: &mut F) -> Result<Answered, Refusal>
    ensures { IsCarriedOut (report_work order.now.units) order.now.setting.now order.now.second.now (F.content shelf.old) (F.faults shelf.old) (F.faults shelf.new) result }
{
    match order.units {
        Some(number) => report_units(alloc, number, order.setting, order.second, shelf),
        None => of_two(alloc, &Tell, order.setting, order.second, shelf),
    }
}

// Tells what an answer about so many units does. A number of them that may not be sold is refused before the setting is read.
fn report_units<F: Shelf>(
    alloc: Global,
    number: i128,
    setting: &str,
    second: &str,
    shelf: &mut F,
) -> Result<Answered, Refusal>
    ensures { IsCarriedOut (report_work (Some number)) setting.now second.now (F.content shelf.old) (F.faults shelf.old) (F.faults shelf.new) result }
{
    match UnitNumber::new(number) {
        Some(units) => of_two(alloc, &TellUnits { units }, setting, second, shelf),
        None => of_none(alloc, &NumberRefused),
    }
}

// Sells so many units. A number of them that may not be sold is refused before the setting is read.
fn sell_units<F: Shelf>(
    alloc: Global,
    number: i128,
    width: Width,
    setting: &str,
    shelf: &mut F,
) -> Result<Answered, Refusal>
    ensures { (second : List ℕ) → IsCarriedOut (units_work number width) setting.now second (F.content shelf.old) (F.faults shelf.old) (F.faults shelf.new) result }
{
    match UnitNumber::new(number) {
        Some(units) => of_one(alloc, &Units { units, width }, setting, shelf),
        None => of_none(alloc, &NumberRefused),
    }
}

// Sells so many units in closed form. A number of them that may not be sold is refused before the setting is read.
fn iron_units<F: Shelf>(
    alloc: Global,
    number: i128,
    setting: &str,
    shelf: &mut F,
) -> Result<Answered, Refusal>
    ensures { (second : List ℕ) → IsCarriedOut (iron_units_work number) setting.now second (F.content shelf.old) (F.faults shelf.old) (F.faults shelf.new) result }
{
    match UnitNumber::new(number) {
        Some(units) => of_one(alloc, &IronUnits { units }, setting, shelf),
        None => of_none(alloc, &NumberRefused),
    }
}

// Sells so many units where only winners pay. A number of them that may not be sold is refused before the setting is read.
fn sell_to_winners<F: Shelf>(
    alloc: Global,
    number: i128,
    setting: &str,
    shelf: &mut F,
) -> Result<Answered, Refusal>
    ensures { (second : List ℕ) → IsCarriedOut (threshold_work number) setting.now second (F.content shelf.old) (F.faults shelf.old) (F.faults shelf.new) result }
{
    match UnitNumber::new(number) {
        Some(units) => of_one(alloc, &ThresholdSale { units }, setting, shelf),
        None => of_none(alloc, &NumberRefused),
    }
}

// Awards so many units at a profile by a draw. A number of them that may not be sold is refused before the setting is read.
fn award<F: Shelf>(
    alloc: Global,
    number: i128,
    profile: &str,
    draw: i128,
    setting: &str,
    shelf: &mut F,
) -> Result<Answered, Refusal>
    ensures { (second : List ℕ) → IsCarriedOut (award_work number profile.now draw) setting.now second (F.content shelf.old) (F.faults shelf.old) (F.faults shelf.new) result }
{
    match UnitNumber::new(number) {
        Some(units) => {
            let command = Awarding {
                units,
                profile,
                draw,
            };
            of_one(alloc, &command, setting, shelf)
        }
        None => of_none(alloc, &NumberRefused),
    }
}
