//! The final text.

ghost use Rattle.std.specs.Prelude.{◌≡◌, ◌++◌, length, OnOk, IfOk, string_bytes};
ghost use Rattle.device_types.specs.Numbers.{IsWithin};
ghost use Rattle.report_text.specs.Lines.{ended};
ghost use Rattle.report_text.specs.Final.{AreEnds, refused_line, text_at, refused_text, devices_text, final_text};

use crate::device::put_device;
use device_types::{DeviceEnd, DeviceId, Finals, Octets};
use echo_base::OutOfMemory;
use entry_edge::RefusedLine;
use std::alloc::Global;
use subs_table::SubsTable;

/// Puts the line of a refusal behind a text.
fn put_refused_line(text: &mut String, refused: RefusedLine) -> Result<(), OutOfMemory>
    ensures { OnOk result (string_bytes text.new ≡ string_bytes text.old ++ ended (refused_line refused)) }
{
    let RefusedLine { line, refusal } = refused;
    writeln!(text, "refused {line} {refusal}")
}

/// Puts the lines of the refusals behind a text.
fn put_refused(text: &mut String, refused: &[RefusedLine]) -> Result<(), OutOfMemory>
    ensures { OnOk result (string_bytes text.new ≡ string_bytes text.old ++ refused_text refused.now) }
{
    for line in refused {
        put_refused_line(text, *line)?;
    }
    Ok(())
}

/// Puts what became of a device behind a text.
fn put_at(
    alloc: Global,
    text: &mut String,
    table: &SubsTable,
    finals: &[DeviceEnd],
    device: DeviceId,
) -> Result<(), OutOfMemory>
    requires device { IsWithin (length table.now) device.0 }
    requires ends { AreEnds table.now finals.now }
    ensures { OnOk result (string_bytes text.new ≡ string_bytes text.old ++ text_at table.now finals.now device) }
{
    let row = table.row(device);
    let end = &finals[device.index()];
    put_device(alloc, text, row, end)
}

/// Puts what became of the devices behind a text.
fn put_devices(
    alloc: Global,
    text: &mut String,
    table: &SubsTable,
    finals: &[DeviceEnd],
) -> Result<(), OutOfMemory>
    requires { AreEnds table.now finals.now }
    ensures { OnOk result (string_bytes text.new ≡ string_bytes text.old ++ devices_text table.now finals.now) }
{
    let devices = table.in_imsi_order(alloc)?;
    for device in &devices {
        put_at(alloc, text, table, finals, *device)?;
    }
    Ok(())
}

/// Puts the text that a run ends with behind a text: a line `refused LINE ` and the refusal for each line of the trace that is refused,
/// in order, and then, for each device in the order of their IMSIs, `device IMSI messages N steps V`, its messages `down K STATION HEX`,
/// its calls `gateway K CALL` and `subscriber K CALL`, each numbered from 1, and its session.
#[tactic(auto, unfolding(crate::specs::Final::final_text))]
pub fn put_final_text(
    alloc: Global,
    text: &mut String,
    table: &SubsTable,
    refused: &[RefusedLine],
    finals: &Finals,
) -> Result<(), OutOfMemory>
    requires { AreEnds table.now finals.now }
    ensures { OnOk result (string_bytes text.new ≡ string_bytes text.old ++ final_text table.now refused.now finals.now) }
{
    put_refused(text, refused)?;
    put_devices(alloc, text, table, finals.items())
}

/// The text that a run ends with, as `put_final_text` puts it.
pub fn final_text(
    alloc: Global,
    table: &SubsTable,
    refused: &[RefusedLine],
    finals: &Finals,
) -> Result<Octets, OutOfMemory>
    requires { AreEnds table.now finals.now }
    ensures { IfOk result (λ text. text ≡ final_text table.now refused.now finals.now) }
{
    let mut text = String::new(alloc);
    put_final_text(alloc, &mut text, table, refused, finals)?;
    Ok(Octets::from(text.into_bytes()))
}
