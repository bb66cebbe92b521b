//! The verdict on the mechanism that an answer says is best.
ghost use Rattle.std.specs.Prelude.{◌≡◌, List, Some};
ghost use Rattle.md_mech.specs.Accepted.{IsAccepted};
ghost use Rattle.md_parts.specs.Fitting.{IsFraction};
ghost use Rattle.md_tree.specs.declared.node.Node.{Node};
ghost use Rattle.md_tree.specs.declared.verdict.DetVerdict.{DetVerdict};
ghost use Rattle.md_tree.specs.declared.verdict.DetVerdict.TheVariants.{Valid};
ghost use Rattle.md_tree.specs.Verdicts.{IsOptimalVerdict};
ghost use Rattle.md_tree.specs.Judging.{IsTreeJudged};

use crate::checking::rule_fault;
use crate::verdict::{DetReject, DetVerdict};
use md_claims::other_value;
use md_mech::Mechanism;
use md_num::Frac;
use md_setting::Setting;

/// The verdict on a mechanism and its value, behind which a tree is to show that no other one is better. What is known before it
/// stays, unless it is valid.
pub(crate) fn judge_rule(
    setting: &Setting,
    value: &Frac,
    mechanism: &Mechanism,
    known: DetVerdict,
) -> DetVerdict
    requires fraction { IsFraction value.now.num value.now.den }
    requires accepted { IsAccepted setting.now mechanism.now }

    // Whatever tree follows, the verdict on it from here is that on the answer.
    ensures { known ≡ Valid → (tree : List Node) (last : DetVerdict) → IsTreeJudged setting.now (Some mechanism.now) tree result last → IsOptimalVerdict setting.now value.now mechanism.now tree last }
{
    if known != DetVerdict::Valid {
        return known;
    }
    if let Some(fault) = rule_fault(setting, mechanism) {
        return DetVerdict::Rejected(fault);
    }
    if let Some(right) = other_value(setting, mechanism, value) {
        return DetVerdict::Rejected(DetReject::Value { right });
    }
    DetVerdict::Valid
}
