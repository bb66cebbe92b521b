//! The verdict behind one node.
ghost use Rattle.std.specs.Prelude.{◌≡◌, ◌≢◌, [], IfOk, option_map};
ghost use Rattle.md_space.specs.Profiles.{profile_count};
ghost use Rattle.md_setting.specs.Meaning.{outcome_count, sizes_of};
ghost use Rattle.md_determ_branching.specs.Tour.{current_of, rest_of};
ghost use Rattle.md_tree.specs.Visits.{IsBest, IsNodeFor, opens_after};
ghost use Rattle.md_tree.specs.Judging.{IsNodeJudged};

use crate::checking::visit;
use crate::node::Node;
use crate::verdict::DetVerdict;
use crate::walking::step;
use md_determ_branching::Walk;
use md_mech::Mechanism;
use md_num::NoMemory;
use md_setting::Setting;
use std::alloc::Global;

/// Goes on from the node of this number, and answers the verdict behind it: it is checked where the verdict before it is valid,
/// and any other one stays.
pub(crate) fn judge_node(
    alloc: Global,
    setting: &Setting,
    best: Option<&Mechanism>,
    walk: &mut Walk,
    node: &Node,
    number: u64,
    known: DetVerdict,
) -> Result<DetVerdict, NoMemory>
    requires best { IsBest setting.now (option_map (λ m. m.now) best) }
    requires ranks { walk.old.ranks ≡ profile_count (sizes_of setting.now) }
    requires outcomes { walk.old.outcomes ≡ outcome_count setting.now }
    requires open { walk.old.opens ≢ [] }
    requires node { IsNodeFor setting.now (current_of walk.old) node.now }
    ensures verdict { IfOk result (IsNodeJudged setting.now (option_map (λ m. m.now) best.entry) (current_of walk.old) node.now number known) }

    // The walk goes on.
    ensures ranks { IfOk result (λ _. walk.new.ranks ≡ walk.old.ranks) }
    ensures outcomes { IfOk result (λ _. walk.new.outcomes ≡ walk.old.outcomes) }
    ensures opens { IfOk result (λ _. walk.new.opens ≡ opens_after walk.old.outcomes (current_of walk.old) node.now (rest_of walk.old)) }
{
    if known != DetVerdict::Valid {
        step(walk, node);
        return Ok(known);
    }
    match visit(alloc, setting, best, walk, node, number)? {
        Some(fault) => Ok(DetVerdict::Rejected(fault)),
        None => Ok(DetVerdict::Valid),
    }
}
