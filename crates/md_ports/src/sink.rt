//! Sinks: where bytes are appended.
// Where texts are written to.
ghost use Rattle.std.specs.Prelude.{◌≡◌, ◌≤◌, ◌++◌, ℕ, List, Option, OnOk, OnErr, IsErr};
ghost use Rattle.std.specs.Option.{ForSome};
ghost use Rattle.md_ports.specs.Faults.{Rose};
ghost use Rattle.md_ports.specs.Written.{AddsFrontOf};

use thiserror::Error;

/// Why a piece was not written whole.
#[derive(Clone, Copy, Debug, Error)]
pub enum SinkError {
    /// The sink failed, which raised its count. A front of the piece may have been written.
    #[error("the sink failed")]
    Failed,
}

/// A place that bytes are appended to.
///
/// A proof may ask which bytes it holds, where it tells them, and how often it has failed.
pub trait Sink {
    /// The bytes so far; `None` where the sink does not tell.
    ghost written: { Self → Option (List ℕ) };

    /// How often it has failed.
    ghost faults: { Self → ℕ };

    /// Appends a piece, or a front of it where the sink fails.
    /// A write that takes no byte of a piece that is not empty is a failure.
    fn write(&mut self, bytes: &[u8]) -> Result<(), SinkError>
        ensures whole { OnOk result (ForSome (written self.old) (λ before. ForSome (written self.new) (λ after. after ≡ before ++ bytes.now))) }
        ensures front { OnErr result (ForSome (written self.old) (λ before. ForSome (written self.new) (AddsFrontOf bytes.now before))) }

        // It does not give up by itself, and its count never falls.
        ensures failed { IsErr result → Rose (faults self.old) (faults self.new) }
        ensures quiet { OnOk result (faults self.new ≡ faults self.old) }
        ensures never_falls { faults self.old ≤ faults self.new };
}
