//! What mechanisms are worth, against one another.
ghost use Rattle.std.specs.Prelude.{◌↔◌, IsTrue, option_map};
ghost use Rattle.md_mech.specs.Accepted.{IsAccepted};
ghost use Rattle.md_tree.specs.Leaves.{IsNoBetter, IsWorthAtMost};
ghost use Rattle.md_tree.specs.Visits.{IsBest, IsLeafOf};

use crate::node::Node;
use md_mech::{Mechanism, worth};
use md_setting::Setting;

/// Whether the mechanism of a leaf is worth at most what the best mechanism is; where there is no best one, whether the leaf has
/// none either.
pub(crate) fn is_no_better(setting: &Setting, best: Option<&Mechanism>, leaf: &Node) -> bool
    requires best { IsBest setting.now (option_map (λ m. m.now) best) }
    requires leaf { IsLeafOf setting.now leaf.now }
    ensures { IsTrue result ↔ IsNoBetter setting.now (option_map (λ m. m.now) best.entry) leaf.now }
{
    match leaf {
        Node::Branch(_) => unreachable!(),
        Node::Infeasible { .. } => true,
        Node::Optimal { mechanism, .. } => match best {
            Some(best) => is_worth_at_most(setting, mechanism, best),
            None => false,
        },
    }
}

// Whether a mechanism is worth at most what another one is.
fn is_worth_at_most(setting: &Setting, mechanism: &Mechanism, other: &Mechanism) -> bool
    requires accepted { IsAccepted setting.now mechanism.now }
    requires other { IsAccepted setting.now other.now }
    ensures { IsTrue result ↔ IsWorthAtMost setting.now mechanism.now other.now }
{
    let weight = setting.total();
    prove!(weight > 0);
    worth(setting, mechanism).at_most(&worth(setting, other))
}
