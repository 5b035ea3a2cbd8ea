//! What admission gives of a case, and the text of its ends.
ghost use Rattle.std.specs.Prelude.{◌≡◌, ◌≤◌, length, All, IfOk};
ghost use Rattle.device_machine.specs.Ends.{finals_of};
ghost use Rattle.entry_edge.specs.Trace.{history};
ghost use Rattle.report_text.specs.Final.{AreEnds, final_text};
ghost use Rattle.top_calls.specs.Ends.{IsAdmitted, plain_of};

use case_form::Case;
use device_types::{Finals, Octets};
use echo_base::OutOfMemory;
use entry_edge::{Admitted, admit};
use report_text::final_text;
use std::alloc::Global;

/// What admission gives of a case.
pub fn admitted(alloc: Global, case: &Case) -> Result<Admitted, OutOfMemory>
    ensures { IfOk result (IsAdmitted case.now.table (history case.now.table case.now.trace)) }
{
    let admitted = admit(alloc, case.table(), case.trace())?;
    Ok(admitted)
}

/// The lines that admission refused, and these ends of the devices, which are those of the definition.
pub fn ends_text(
    alloc: Global,
    case: &Case,
    admitted: &Admitted,
    finals: &Finals,
) -> Result<Octets, OutOfMemory>
    requires admitted { IsAdmitted case.now.table (history case.now.table case.now.trace) admitted.now }
    requires finals { finals.now ≡ finals_of case.now.table admitted.now.book }
    ensures { IfOk result (λ text. text ≡ plain_of case.now.table (history case.now.table case.now.trace)) }
{
    final_text(alloc, case.table(), &admitted.refused, finals)
}
