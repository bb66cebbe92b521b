//! What is told of the faults of certificates.
ghost use Rattle.std.specs.Prelude.{◌↔◌, IsNone, IfSome};
ghost use Rattle.md_lp.specs.Program.{Program};
ghost use Rattle.md_cert.specs.declared.certificate.Certificate.{Certificate};
ghost use Rattle.md_cert.specs.Certified.{Certified};
ghost use Rattle.md_cert.specs.Fault.{IsFirstFault};
ghost use Rattle.md_question_check.specs.Certificates.{IsBehindPoint, TellsFault, Judges};

use crate::verdict::{Reject, Verdict};
use md_cert::CertFault;

/// The verdict on a certificate with this first fault, or with none, where the point meets the program.
pub fn verdict_by(fault: Option<CertFault>) -> Verdict
    requires { IfSome fault IsBehindPoint }
    ensures { (p : Program) (c : Certificate) → (IsNone fault ↔ Certified p c) → IfSome fault (IsFirstFault p c) → Judges p c result }
{
    match fault {
        None => Verdict::Valid,
        Some(fault) => Verdict::Rejected(reject_of(fault)),
    }
}

// What is told of a certificate's fault.
fn reject_of(fault: CertFault) -> Reject
    requires { IsBehindPoint fault }
    ensures { (p : Program) (c : Certificate) → IsFirstFault p c fault → TellsFault p c result }
{
    match fault {
        CertFault::Point { .. } => unreachable!(),
        CertFault::Pair { row, face, main } => Reject::Pair { row, face, main },
        CertFault::Column { column, face, main } => Reject::Column { column, face, main },
        CertFault::FaceRight { sum } => Reject::FaceRight { sum },
        CertFault::MainRight { bound, cost } => Reject::MainRight { bound, cost },
        CertFault::RayRow { row, sum } => Reject::RayRow { row, sum },
        CertFault::RayGain { sum } => Reject::RayGain { sum },
    }
}
