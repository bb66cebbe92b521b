//! Writing what a call says.
ghost use Rattle.std.specs.Prelude.{◌≢◌};
ghost use Rattle.md_cli_driver.specs.Saying.{IsSent, write_fault};

use md_cli_driver::WRITE_FAULT;
use md_ports::Sink;

/// Writes a text by one call of the sink, and gives the status to end with.
pub(crate) fn send<S: Sink>(sink: &mut S, status: u8, text: &[u8]) -> u8
    requires { status ≢ write_fault }
    ensures { IsSent record { status = status; text = text.now } result (S.written sink.old) (S.written sink.new) (S.faults sink.old) (S.faults sink.new) }
{
    match sink.write(text) {
        Ok(()) => status,
        Err(_) => WRITE_FAULT,
    }
}
