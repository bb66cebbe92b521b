//! The verdict on an answer about the best deterministic mechanism.
ghost use Rattle.std.specs.Prelude.{◌≡◌, ◌≢◌, ◌↔◌, [], IfOk, MatchBool, MatchOption, option_map};
ghost use Rattle.md_space.specs.Profiles.{profile_count};
ghost use Rattle.md_setting.specs.Meaning.{outcome_count, sizes_of};
ghost use Rattle.md_mech.specs.Accepted.{IsAccepted};
ghost use Rattle.md_determ_branching.specs.Tour.{current_of, rest_of};
ghost use Rattle.md_parts.specs.Fitting.{IsFraction, IsRayFor};
ghost use Rattle.md_tree.specs.declared.verdict.DetVerdict.{DetVerdict};
ghost use Rattle.md_tree.specs.declared.verdict.DetVerdict.TheVariants.{Valid, Undecided};
ghost use Rattle.md_tree.specs.Trees.{IsTree};
ghost use Rattle.md_tree.specs.AnswerTo.{IsLeafFor, IsDetAnswerTo};
ghost use Rattle.md_tree.specs.Verdicts.{IsTreeVerdict, IsOptimalVerdict, IsUnboundedVerdict, IsRule, IsRuleFault, HasGrowth, HasNoGrowth, IsVerdict, ClaimsNothing, ClaimHolds};
ghost use Rattle.md_tree.specs.Visits.{IsBest, IsNodeFor, IsSoundNode, IsNodeFault, opens_after};

use crate::answer::DetAnswer;
use crate::leaves::check_leaf;
use crate::node::Node;
use crate::tree::Tree;
use crate::verdict::{DetReject, DetVerdict};
use md_cert::check_lp;
use md_claims::{other_value, unbounded_certificate};
use md_determ_branching::Walk;
use md_determ_node::first_lottery;
use md_mech::{Mechanism, audit};
use md_num::{Frac, NoMemory, Nums};
use md_rows::rows_of;
use md_setting::Setting;
use std::alloc::Global;

/// The verdict on an answer about the best deterministic mechanism of a setting: valid where all its conditions hold,
/// undecided where it claims nothing, and else rejected with the first condition that fails. Memory is taken for the way
/// through the tree, and for the program and the certificate of one leaf at a time. Nothing but want of memory is an error.
pub fn check_determ(
    alloc: Global,
    setting: &Setting,
    answer: &DetAnswer,
) -> Result<DetVerdict, NoMemory>
    requires answer { IsDetAnswerTo setting.now answer.now }
    ensures verdict { IfOk result (IsVerdict setting.now answer.now) }
    ensures undecided { IfOk result (λ verdict. (verdict ≡ Undecided) ↔ ClaimsNothing answer.now) }

    // No other verdict is right.
    ensures only { IfOk result (λ verdict. (other : DetVerdict) → IsVerdict setting.now answer.now other → other ≡ verdict) }

    // Where the answer is valid, what it claims is so.
    ensures claim { IfOk result (λ verdict. verdict ≡ Valid → ClaimHolds setting.now answer.now) }
{
    match answer {
        DetAnswer::Optimal {
            value,
            mechanism,
            tree,
        } => check_optimal(alloc, setting, value, mechanism, tree),
        DetAnswer::Infeasible { tree } => check_tree(alloc, setting, None, tree),
        DetAnswer::Unbounded { mechanism, ray } => check_unbounded(alloc, setting, mechanism, ray),
        DetAnswer::TooWide { .. } => Ok(DetVerdict::Undecided),
    }
}

// The verdict on a mechanism with its value and a tree.
fn check_optimal(
    alloc: Global,
    setting: &Setting,
    value: &Frac,
    mechanism: &Mechanism,
    tree: &Tree,
) -> Result<DetVerdict, NoMemory>
    requires fraction { IsFraction value.now.num value.now.den }
    requires accepted { IsAccepted setting.now mechanism.now }
    requires tree { IsTree setting.now (IsLeafFor setting.now) tree.now }
    ensures verdict { IfOk result (IsOptimalVerdict setting.now value.now mechanism.now tree.now) }
    ensures only { IfOk result (λ verdict. (other : DetVerdict) → IsOptimalVerdict setting.now value.now mechanism.now tree.now other → other ≡ verdict) }
{
    if let Some(fault) = rule_fault(setting, mechanism) {
        return Ok(DetVerdict::Rejected(fault));
    }
    if let Some(right) = other_value(setting, mechanism, value) {
        return Ok(DetVerdict::Rejected(DetReject::Value { right }));
    }
    check_tree(alloc, setting, Some(mechanism), tree)
}

// The verdict on a mechanism with a ray.
fn check_unbounded(
    alloc: Global,
    setting: &Setting,
    mechanism: &Mechanism,
    ray: &Nums,
) -> Result<DetVerdict, NoMemory>
    requires accepted { IsAccepted setting.now mechanism.now }
    requires ray { IsRayFor setting.now ray.now }
    ensures { IfOk result (IsUnboundedVerdict setting.now mechanism.now ray.now) }
{
    if let Some(fault) = rule_fault(setting, mechanism) {
        return Ok(DetVerdict::Rejected(fault));
    }
    if grows(alloc, setting, mechanism, ray)? {
        Ok(DetVerdict::Valid)
    } else {
        Ok(DetVerdict::Rejected(DetReject::Root))
    }
}

/// Why a mechanism is no admissible one without lotteries: the first lottery, or else the first condition of the setting that it
/// breaks. None where it is one.
pub(crate) fn rule_fault(setting: &Setting, mechanism: &Mechanism) -> Option<DetReject>
    requires { IsAccepted setting.now mechanism.now }
    ensures { MatchOption result (IsRule setting.now mechanism.now) (IsRuleFault setting.now mechanism.now) }
{
    if let Some(rank) = first_lottery(setting, mechanism) {
        return Some(DetReject::Lottery { rank });
    }
    if let Some(broken) = audit(setting, mechanism) {
        return Some(DetReject::Audit { broken });
    }
    None
}

// Whether the setting's program certifies a ray with the point of a mechanism.
fn grows(
    alloc: Global,
    setting: &Setting,
    mechanism: &Mechanism,
    ray: &Nums,
) -> Result<bool, NoMemory>
    requires accepted { IsAccepted setting.now mechanism.now }
    requires ray { IsRayFor setting.now ray.now }
    ensures { IfOk result (λ grows. MatchBool grows (HasGrowth setting.now mechanism.now ray.now) (HasNoGrowth setting.now mechanism.now ray.now)) }
{
    let program = rows_of(alloc, setting)?;
    let certificate = unbounded_certificate(alloc, setting, mechanism, ray)?;
    Ok(check_lp(&program, &certificate).is_none())
}

// The verdict on a tree that is to show that no deterministic mechanism is better than the best one, or that there is none.
fn check_tree(
    alloc: Global,
    setting: &Setting,
    best: Option<&Mechanism>,
    tree: &Tree,
) -> Result<DetVerdict, NoMemory>
    requires best { IsBest setting.now (option_map (λ m. m.now) best) }
    requires tree { IsTree setting.now (IsLeafFor setting.now) tree.now }
    ensures { IfOk result (IsTreeVerdict setting.now (option_map (λ m. m.now) best.entry) tree.now) }
{
    let mut walk = Walk::new(alloc, setting.space().profiles(), setting.outcomes())?;
    for place in 0..tree.len() {
        let node = tree.get(place);
        if let Some(fault) = visit(alloc, setting, best, &mut walk, node, place as u64)? {
            return Ok(DetVerdict::Rejected(fault));
        }
    }
    Ok(DetVerdict::Valid)
}

/// Goes on from the node of this number: to its children where it branches, and else to the node that comes behind it. Answers
/// why it shows nothing, where it is a leaf that does not show what it is to show.
///
/// # Errors
/// Want of memory, for the program and the certificate of a leaf.
pub(crate) fn visit(
    alloc: Global,
    setting: &Setting,
    best: Option<&Mechanism>,
    walk: &mut Walk,
    node: &Node,
    number: u64,
) -> Result<Option<DetReject>, NoMemory>
    requires best { IsBest setting.now (option_map (λ m. m.now) best) }
    requires ranks { walk.old.ranks ≡ profile_count (sizes_of setting.now) }
    requires outcomes { walk.old.outcomes ≡ outcome_count setting.now }
    requires open { walk.old.opens ≢ [] }
    requires node { IsNodeFor setting.now (current_of walk.old) node.now }
    ensures fault { IfOk result (λ fault. MatchOption fault (IsSoundNode setting.now (option_map (λ m. m.now) best.entry) (current_of walk.old) node.now) (IsNodeFault setting.now (option_map (λ m. m.now) best.entry) (current_of walk.old) node.now number)) }

    // The walk goes on.
    ensures ranks { IfOk result (λ _. walk.new.ranks ≡ walk.old.ranks) }
    ensures outcomes { IfOk result (λ _. walk.new.outcomes ≡ walk.old.outcomes) }
    ensures opens { IfOk result (λ _. walk.new.opens ≡ opens_after walk.old.outcomes (current_of walk.old) node.now (rest_of walk.old)) }
{
    if let Node::Branch(rank) = node {
        walk.branch(*rank);
        return Ok(None);
    }
    let fault = check_leaf(alloc, setting, best, walk.fixed(), node, number)?;
    walk.leave();
    Ok(fault)
}
