//! The conditions of a setting as rows.
ghost use Rattle.std.specs.Prelude.{◌≡◌, ◌≢◌, ◌<◌, ◌^◌, [], ◌∷◌, slice_index, OnErr, OnOk};
ghost use Rattle.md_math.specs.Sizes.{IsWithin};
ghost use Rattle.md_space.specs.Profiles.{profile_count, profile_at};
ghost use Rattle.md_setting.specs.Meaning.{agent_count, sizes_of};
ghost use Rattle.md_mech.specs.Conditions.{IsInside, named};
ghost use Rattle.md_mech.specs.Rows.{dominant_row, bayes_row, ex_post_row, interim_row, deficit_row, profile_row};
ghost use Rattle.md_rows.specs.Sides.{right_side};
ghost use Rattle.md_rows.specs.Built.{HasRoom, Extends};

use crate::shares::{bayes_shares, dominant_shares, interim_shares};
use crate::terms::{deficit_terms, profile_terms, utility_terms};
use md_forms::push_form;
use md_lp::{Lp, RowKind, Term};
use md_mech::Condition;
use md_num::{NoMemory, product};
use md_setting::Setting;
use std::alloc::Global;

/// Appends the row of a condition. Where memory ran out the program stays as it was.
pub(crate) fn push_condition(
    alloc: Global,
    setting: &Setting,
    condition: Condition,
    lp: &mut Lp,
) -> Result<(), NoMemory>
    requires inside { IsInside setting.now condition }
    requires room { HasRoom setting.now (named setting.now condition ∷ []) lp.old }
    ensures ok { OnOk result (Extends setting.now (named setting.now condition ∷ []) lp.old lp.new) }
    ensures err { OnErr result (lp.new ≡ lp.old) }
{
    match condition {
        Condition::Dominant {
            agent,
            rank,
            report,
        } => push_dominant(alloc, setting, agent, rank, report, lp),
        Condition::Bayes {
            agent,
            kind,
            report,
        } => push_bayes(alloc, setting, agent, kind, report, lp),
        Condition::ExPost { agent, rank } => push_ex_post(alloc, setting, agent, rank, lp),
        Condition::Interim { agent, kind } => push_interim(alloc, setting, agent, kind, lp),
        Condition::Deficit { rank } => push_deficit(alloc, setting, rank, lp),
        Condition::Profile { rank } => push_profile(alloc, setting, rank, lp),
    }
}

fn push_dominant(
    alloc: Global,
    setting: &Setting,
    agent: u8,
    rank: u32,
    report: u8,
    lp: &mut Lp,
) -> Result<(), NoMemory>
    requires agent_in { agent < agent_count setting.now }
    requires rank_in { rank < profile_count (sizes_of setting.now) }
    requires report_in { report < slice_index (sizes_of setting.now) agent }
    requires false_report { report ≢ slice_index (profile_at (sizes_of setting.now) rank) agent }
    requires room { HasRoom setting.now (dominant_row agent (profile_at (sizes_of setting.now) rank) report ∷ []) lp.old }
    ensures ok { OnOk result (Extends setting.now (dominant_row agent (profile_at (sizes_of setting.now) rank) report ∷ []) lp.old lp.new) }
    ensures err { OnErr result (lp.new ≡ lp.old) }
{
    let kind = setting.space().report(rank, agent);
    let shares = dominant_shares(alloc, setting, agent, rank, report)?;
    let terms = utility_terms(alloc, setting, agent, kind, &shares)?;
    push_form(lp, RowKind::AtMost, &terms, 0)
}

fn push_bayes(
    alloc: Global,
    setting: &Setting,
    agent: u8,
    kind: u8,
    report: u8,
    lp: &mut Lp,
) -> Result<(), NoMemory>
    requires agent_in { agent < agent_count setting.now }
    requires kind_in { kind < slice_index (sizes_of setting.now) agent }
    requires report_in { report < slice_index (sizes_of setting.now) agent }
    requires false_report { report ≢ kind }
    requires room { HasRoom setting.now (bayes_row agent kind report ∷ []) lp.old }
    ensures ok { OnOk result (Extends setting.now (bayes_row agent kind report ∷ []) lp.old lp.new) }
    ensures err { OnErr result (lp.new ≡ lp.old) }
{
    let shares = bayes_shares(alloc, setting, agent, kind, report)?;
    let terms = utility_terms(alloc, setting, agent, kind, &shares)?;
    push_form(lp, RowKind::AtMost, &terms, 0)
}

fn push_ex_post(
    alloc: Global,
    setting: &Setting,
    agent: u8,
    rank: u32,
    lp: &mut Lp,
) -> Result<(), NoMemory>
    requires agent_in { agent < agent_count setting.now }
    requires rank_in { rank < profile_count (sizes_of setting.now) }
    requires room { HasRoom setting.now (ex_post_row agent (profile_at (sizes_of setting.now) rank) ∷ []) lp.old }
    ensures ok { OnOk result (Extends setting.now (ex_post_row agent (profile_at (sizes_of setting.now) rank) ∷ []) lp.old lp.new) }
    ensures err { OnErr result (lp.new ≡ lp.old) }
{
    let kind = setting.space().report(rank, agent);
    let share = Term {
        column: rank,
        value: -1,
    };
    let terms = utility_terms(alloc, setting, agent, kind, &[share])?;
    push_form(lp, RowKind::AtMost, &terms, -setting.outside(agent, kind))
}

fn push_interim(
    alloc: Global,
    setting: &Setting,
    agent: u8,
    kind: u8,
    lp: &mut Lp,
) -> Result<(), NoMemory>
    requires agent_in { agent < agent_count setting.now }
    requires kind_in { kind < slice_index (sizes_of setting.now) agent }
    requires room { HasRoom setting.now (interim_row agent kind ∷ []) lp.old }
    ensures ok { OnOk result (Extends setting.now (interim_row agent kind ∷ []) lp.old lp.new) }
    ensures err { OnErr result (lp.new ≡ lp.old) }
{
    let shares = interim_shares(alloc, setting, agent, kind)?;
    let terms = utility_terms(alloc, setting, agent, kind, &shares)?;
    push_form(lp, RowKind::AtMost, &terms, lacking(setting, agent, kind))
}

// What a type of an agent has without taking part, taken away by the weight of the profiles with the type.
fn lacking(setting: &Setting, agent: u8, kind: u8) -> i128
    requires agent_in { agent < agent_count setting.now }
    requires kind_in { kind < slice_index (sizes_of setting.now) agent }
    ensures value { result ≡ right_side setting.now (interim_row agent kind) }
    ensures size { IsWithin (2 ^ 44) result }
{
    product(-setting.outside(agent, kind), setting.marginal(agent, kind))
}

fn push_deficit(alloc: Global, setting: &Setting, rank: u32, lp: &mut Lp) -> Result<(), NoMemory>
    requires rank_in { rank < profile_count (sizes_of setting.now) }
    requires room { HasRoom setting.now (deficit_row (profile_at (sizes_of setting.now) rank) ∷ []) lp.old }
    ensures ok { OnOk result (Extends setting.now (deficit_row (profile_at (sizes_of setting.now) rank) ∷ []) lp.old lp.new) }
    ensures err { OnErr result (lp.new ≡ lp.old) }
{
    let terms = deficit_terms(alloc, setting, rank)?;
    push_form(lp, RowKind::AtMost, &terms, 0)
}

fn push_profile(alloc: Global, setting: &Setting, rank: u32, lp: &mut Lp) -> Result<(), NoMemory>
    requires rank_in { rank < profile_count (sizes_of setting.now) }
    requires room { HasRoom setting.now (profile_row (profile_at (sizes_of setting.now) rank) ∷ []) lp.old }
    ensures ok { OnOk result (Extends setting.now (profile_row (profile_at (sizes_of setting.now) rank) ∷ []) lp.old lp.new) }
    ensures err { OnErr result (lp.new ≡ lp.old) }
{
    let terms = profile_terms(alloc, setting, rank)?;
    push_form(lp, RowKind::Exact, &terms, 1)
}
