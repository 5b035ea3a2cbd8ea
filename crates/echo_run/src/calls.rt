//! What the devices of a case call of their peers, and what these answer.

ghost use Rattle.std.specs.Prelude.{◌≡◌, length, IfOk};
ghost use Rattle.device_machine.specs.Ends.{finals_of};
ghost use Rattle.entry_edge.specs.Trace.{history, book_of};
ghost use Rattle.report_text.specs.Calls.{gateway_wire, server_wire, AreCallers};
ghost use Rattle.echo_run.specs.Answer.{s11_of, s6a_of};

use crate::ends::finals_of;
use case_form::Case;
use device_types::{Finals, Octets};
use echo_base::OutOfMemory;
use report_text::{s6a_text, s11_text};
use std::alloc::Global;
use top_calls::admitted;

/// What becomes of the devices of a case. Their calls can be written.
fn callers(alloc: Global, case: &Case) -> Result<Finals, OutOfMemory>
    ensures finals { let turns = history case.now.table case.now.trace in
        IfOk result (λ finals. finals ≡ finals_of case.now.table (book_of (length case.now.table) turns)) }
    ensures gateway { IfOk result (AreCallers gateway_wire case.now.table) }
    ensures server { IfOk result (AreCallers server_wire case.now.table) }
{
    let admitted = admitted(alloc, case)?;
    finals_of(alloc, case.table(), &admitted.book)
}

/// What the devices of a case call of the gateway, and what it answers.
pub fn s11(alloc: Global, case: &Case) -> Result<Octets, OutOfMemory>
    ensures { IfOk result (λ text. text ≡ s11_of case.now.table (history case.now.table case.now.trace)) }
{
    let finals = callers(alloc, case)?;
    s11_text(alloc, case.table(), &finals)
}

/// What the devices of a case call of the subscriber server, and what it answers.
pub fn s6a(alloc: Global, case: &Case) -> Result<Octets, OutOfMemory>
    ensures { IfOk result (λ text. text ≡ s6a_of case.now.table (history case.now.table case.now.trace)) }
{
    let finals = callers(alloc, case)?;
    s6a_text(alloc, case.table(), &finals)
}
