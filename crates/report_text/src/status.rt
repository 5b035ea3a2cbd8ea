//! The line of a status.

ghost use Rattle.std.specs.Prelude.{◌≡◌, IfOk};
ghost use Rattle.report_text.specs.Status.{status_line};

use device_types::Octets;
use echo_base::{OutOfMemory, Status};
use std::alloc::Global;

/// The line that a program prints for a status, with the LF that ends it: `echo: usage`, `echo: case refused NUMBER NAME line LINE`,
/// `echo: read fault`, `echo: write fault`, `echo: out of memory`, and `echo: done`. NAME stands there where a reason has the number.
pub fn status_line(alloc: Global, status: &Status) -> Result<Octets, OutOfMemory>
    ensures { IfOk result (λ line. line ≡ status_line status.now) }
{
    let line = format!(in alloc; "{status}\n")?;
    Ok(Octets::from(line.into_bytes()))
}
