//! Mechanisms that a search finds: whether they are deterministic, and what they are worth against one another.
ghost use Rattle.std.specs.Prelude.{◌≡◌, ◌↔◌, IfOk, IsTrue};
ghost use Rattle.md_mech.specs.Accepted.{IsAccepted};
ghost use Rattle.md_determ_node.specs.Deterministic.{IsDeterministic};
ghost use Rattle.md_tree.specs.Leaves.{IsWorthAtMost};
ghost use Rattle.md_determ.specs.Search.{IsNoBetter};
ghost use Rattle.md_determ.specs.Way.{IsAcceptedBest};

use md_determ_node::first_lottery;
use md_mech::{Mechanism, worth};
use md_num::{NoMemory, Nums};
use md_setting::Setting;
use std::alloc::Global;

/// Whether each lottery of a mechanism is on one outcome.
pub(crate) fn is_deterministic(setting: &Setting, mechanism: &Mechanism) -> bool
    requires { IsAccepted setting.now mechanism.now }
    ensures { IsTrue result ↔ IsDeterministic setting.now mechanism.now }
{
    first_lottery(setting, mechanism).is_none()
}

/// Whether a mechanism is worth at most what the best one is, where one was found.
pub(crate) fn is_no_better(
    setting: &Setting,
    best: &Option<Mechanism>,
    mechanism: &Mechanism,
) -> bool
    requires best { IsAcceptedBest setting.now best.now }
    requires accepted { IsAccepted setting.now mechanism.now }
    ensures { IsTrue result ↔ IsNoBetter setting.now best.now mechanism.now }
{
    match best {
        None => false,
        Some(best) => is_worth_at_most(setting, mechanism, best),
    }
}

// Whether a mechanism is worth at most what another one is.
fn is_worth_at_most(setting: &Setting, mechanism: &Mechanism, other: &Mechanism) -> bool
    requires accepted { IsAccepted setting.now mechanism.now }
    requires other { IsAccepted setting.now other.now }
    ensures { IsTrue result ↔ IsWorthAtMost setting.now mechanism.now other.now }
{
    let _shaped = setting.space();
    worth(setting, mechanism).at_most(&worth(setting, other))
}

/// The same mechanism once more.
pub(crate) fn copy(alloc: Global, mechanism: &Mechanism) -> Result<Mechanism, NoMemory>
    ensures { IfOk result (λ copy. copy ≡ mechanism.now) }
{
    Ok(Mechanism {
        den: mechanism.den,
        chances: Nums::from_slice(alloc, mechanism.chances.as_slice())?,
        pays: Nums::from_slice(alloc, mechanism.pays.as_slice())?,
    })
}
