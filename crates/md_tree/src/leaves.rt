//! The check of one leaf.
ghost use Rattle.std.specs.Prelude.{MatchBool, MatchOption, IfOk, option_map};
ghost use Rattle.md_determ_node.specs.NodeProgram.{IsNode};
ghost use Rattle.md_tree.specs.AnswerTo.{IsLeafFor};
ghost use Rattle.md_tree.specs.Leaves.{IsSoundLeaf, IsCertifiedLeaf, IsRefusedLeaf};
ghost use Rattle.md_tree.specs.Verdicts.{IsLeafFault};
ghost use Rattle.md_tree.specs.Visits.{IsBest};

use crate::certificates::leaf_certificate;
use crate::node::Node;
use crate::verdict::DetReject;
use crate::worths::is_no_better;
use md_cert::check_lp;
use md_determ_branching::Fixed;
use md_determ_node::node_program;
use md_mech::Mechanism;
use md_num::NoMemory;
use md_setting::Setting;
use std::alloc::Global;

/// Why a leaf shows nothing, or none where it shows what it is to show. Its certificate is that of the program of what is fixed
/// there; memory is taken for the two.
pub(crate) fn check_leaf(
    alloc: Global,
    setting: &Setting,
    best: Option<&Mechanism>,
    fixed: &Fixed,
    leaf: &Node,
    number: u64,
) -> Result<Option<DetReject>, NoMemory>
    requires best { IsBest setting.now (option_map (λ m. m.now) best) }
    requires node { IsNode setting.now fixed.now }
    requires leaf { IsLeafFor setting.now fixed.now leaf.now }
    ensures { IfOk result (λ fault. MatchOption fault (IsSoundLeaf setting.now (option_map (λ m. m.now) best.entry) fixed.now leaf.now) (IsLeafFault setting.now (option_map (λ m. m.now) best.entry) fixed.now leaf.now number)) }
{
    if !is_certified(alloc, setting, fixed, leaf)? {
        return Ok(Some(DetReject::Leaf { node: number }));
    }
    if !is_no_better(setting, best, leaf) {
        return Ok(Some(DetReject::Worth { node: number }));
    }
    Ok(None)
}

// Whether the program of what is fixed at a leaf certifies it.
fn is_certified(
    alloc: Global,
    setting: &Setting,
    fixed: &Fixed,
    leaf: &Node,
) -> Result<bool, NoMemory>
    requires node { IsNode setting.now fixed.now }
    requires leaf { IsLeafFor setting.now fixed.now leaf.now }
    ensures { IfOk result (λ certified. MatchBool certified (IsCertifiedLeaf setting.now fixed.now leaf.now) (IsRefusedLeaf setting.now fixed.now leaf.now)) }
{
    let program = node_program(alloc, setting, fixed)?;
    let certificate = leaf_certificate(alloc, setting, leaf)?;
    Ok(check_lp(&program, &certificate).is_none())
}
