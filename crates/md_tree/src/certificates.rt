//! The certificates that leaves state.
ghost use Rattle.std.specs.Prelude.{◌≡◌, IfOk};
ghost use Rattle.md_tree.specs.Leaves.{OfCertificate};
ghost use Rattle.md_tree.specs.Visits.{IsLeafOf};

use crate::node::Node;
use md_cert::Certificate;
use md_claims::{infeasible_certificate, optimal_certificate};
use md_num::NoMemory;
use md_setting::Setting;
use std::alloc::Global;

/// The certificate that a leaf states.
pub(crate) fn leaf_certificate(
    alloc: Global,
    setting: &Setting,
    leaf: &Node,
) -> Result<Certificate, NoMemory>
    requires { IsLeafOf setting.now leaf.now }
    ensures { IfOk result (λ certificate. OfCertificate setting.now (λ stated. certificate ≡ stated) leaf.now) }
{
    match leaf {
        Node::Branch(_) => unreachable!(),
        Node::Infeasible { face } => infeasible_certificate(alloc, face),
        Node::Optimal { mechanism, bound } => {
            optimal_certificate(alloc, setting, mechanism, bound)
        }
    }
}
