//! The whole call: from words and files to a text and a status.
ghost use Rattle.std.specs.Prelude.{map, string_bytes};
ghost use Rattle.md_cli_words.specs.Orders.{asked};
ghost use Rattle.md_cli_words.specs.Words.{command_of};
ghost use Rattle.md_top.specs.Promises.{IsComplete, IsHeadlineOf};
ghost use Rattle.md_top.specs.Reply.{IsSaid, IsSaidOfOrder};
ghost use Rattle.md_cli_driver.specs.Saying.{Saying, IsDelivered, IsSent, change_of};
ghost use Rattle.md_cli_driver.specs.Refused.{IsTold, refused};
ghost use Rattle.md_cli_driver.specs.declared.refusal.Refusal.{Refusal};

use crate::run::run;
use crate::send::send;
use md_cli_driver::{NO_MEMORY, Refusal, want_of_memory};
use md_cli_words::{Order, order_of};
use md_ports::{Shelf, Sink};
use std::alloc::Global;

/// Carries out the command that the words ask for, says what comes of it by one write to a sink, and gives the status
/// to end with.
///
/// An answer goes to `out` with a status below 64, and a refusal to `err` as one line. docs/FORMATS.md lists the
/// statuses and texts. Where the write fails the status is 71, and nothing more is written.
pub fn mechdes<F: Shelf, O: Sink, E: Sink>(
    alloc: Global,
    words: &[String],
    shelf: &mut F,
    out: &mut O,
    err: &mut E,
) -> u8
    // What is said belongs to the words and files, and it is delivered.
    ensures said { (saying : Saying)
        × (IsSaid (map string_bytes words.now) (F.content shelf.old) (F.faults shelf.old) (F.faults shelf.new) saying
        × IsDelivered saying result
        (change_of O.written O.faults out.old out.new)
        (change_of E.written E.faults err.old err.new)) }

    // Whatever a setting file holds: a mechanism that is printed as optimal, read back from the text, is admissible, and no
    // admissible mechanism has a greater objective; infeasible, unbounded and too wide are printed only where they are so.
    ensures headline { IsHeadlineOf (command_of (map string_bytes words.now)) (F.content shelf.old) result
        (change_of O.written O.faults out.old out.new) }

    // A command gets its reply wherever no fault is counted and memory does not run out.
    ensures complete { IsComplete (command_of (map string_bytes words.now)) (F.content shelf.old) (F.faults shelf.old) (F.faults shelf.new) result
        (change_of O.written O.faults out.old out.new)
        (change_of E.written E.faults err.old err.new) }
{
    call(alloc, words, shelf, out, err)
}

// Reads the words and carries them out.
fn call<F: Shelf, O: Sink, E: Sink>(
    alloc: Global,
    words: &[String],
    shelf: &mut F,
    out: &mut O,
    err: &mut E,
) -> u8
    ensures { (saying : Saying)
        × (IsSaid (map string_bytes words.now) (F.content shelf.old) (F.faults shelf.old) (F.faults shelf.new) saying
        × IsDelivered saying result
        (change_of O.written O.faults out.old out.new)
        (change_of E.written E.faults err.old err.new)) }
{
    match order_of(alloc, words) {
        Ok(Some(order)) => carry_out(alloc, &order, shelf, out, err),
        Ok(None) => say_refusal(alloc, Refusal::Usage, err),
        Err(_) => say_refusal(alloc, Refusal::Memory, err),
    }
}

// Carries a command out and says what comes of it.
fn carry_out<F: Shelf, O: Sink, E: Sink>(
    alloc: Global,
    order: &Order<'_>,
    shelf: &mut F,
    out: &mut O,
    err: &mut E,
) -> u8
    ensures { (saying : Saying)
        × (IsSaidOfOrder (asked order.now) (F.content shelf.old) (F.faults shelf.old) (F.faults shelf.new) saying
        × IsDelivered saying result
        (change_of O.written O.faults out.old out.new)
        (change_of E.written E.faults err.old err.new)) }
{
    match run(alloc, order, shelf) {
        Ok(answered) => send(out, answered.status, &answered.text),
        Err(refusal) => say_refusal(alloc, refusal, err),
    }
}

// Says a refusal. Where its line is made in memory and there is none, it says that instead.
fn say_refusal<E: Sink>(alloc: Global, refusal: Refusal, err: &mut E) -> u8
    ensures { (told : Refusal) × (IsTold refusal told
        × IsSent (refused told) result (E.written err.old) (E.written err.new) (E.faults err.old) (E.faults err.new)) }
{
    if let Some(line) = refusal.line() {
        return send(err, refusal.status(), line.as_bytes());
    }
    match refusal.made_line(alloc) {
        Ok(line) => send(err, refusal.status(), line.as_bytes()),
        Err(_) => send(err, NO_MEMORY, want_of_memory().as_bytes()),
    }
}
