//! The table, with rows that are read from lines.
ghost use Rattle.std.specs.Prelude.{◌≡◌, IfOk};
ghost use Rattle.device_types.specs.Subscriber.{IsSubscriber};

use crate::subs_table_calls::line_with;
use device_types::{DeviceId, Subscriber};
use std::alloc::Global;
use std::test::Fail;
use subs_table::{SubsTable, read_row};

/// Rows that are added in turn: the IMSI, the M-TMSI, and the answer.
const ROWS: &str = "\
208930000000001 1 Ok(DeviceId(1))
208930000000001 1 Err(Refused(Refusal { reason: RepeatedImsi, place: 0 }))
208930000000001 2 Err(Refused(Refusal { reason: RepeatedImsi, place: 0 }))
208930000000002 1 Err(Refused(Refusal { reason: RepeatedTmsi, place: 0 }))
208930000000002 4294967295 Ok(DeviceId(2))
000000000000001 0 Ok(DeviceId(3))";

/// The good row with that number, IMSI and M-TMSI.
fn row_with(alloc: Global, number: u32, imsi: &str, tmsi: &str) -> Result<Subscriber, Fail>
    ensures range { IfOk result IsSubscriber }
    ensures numbered { IfOk result (λ row. row.number ≡ number) }
{
    let identities = format!(in alloc; "[],\"imsi\":\"{imsi}\",\"tmsi\":{tmsi}")?;
    let line = line_with(alloc, "forbidden", identities.as_str())?;
    let row = read_row(alloc, line.as_bytes(), number)?;
    Ok(row)
}

/// Adds a row, and writes the answer.
fn tell_answer(
    alloc: Global,
    table: &mut SubsTable,
    text: &mut String,
    imsi: &str,
    tmsi: &str,
) -> Result<(), Fail> {
    let row = row_with(alloc, table.len() + 1, imsi, tmsi)?;
    let answer = table.add(row);
    let told = format!(in alloc; "{imsi} {tmsi} {answer:?}\n")?;
    text.push_str(told.as_str())?;
    Ok(())
}

/// Adds the rows of the table of cases, and writes each again with its answer.
fn tell_rows(alloc: Global, table: &mut SubsTable, text: &mut String) -> Result<(), Fail> {
    for case in ROWS.lines() {
        let (imsi, rest) = case.split_once(' ').ok_or("no IMSI")?;
        let (tmsi, _) = rest.split_once(' ').ok_or("no M-TMSI")?;
        tell_answer(alloc, table, text, imsi, tmsi)?;
    }
    Ok(())
}

/// Writes how many rows there are, twice, the third row's IMSI, and what look-ups by IMSIs and M-TMSIs give.
fn tell_found(alloc: Global, table: &SubsTable, text: &mut String) -> Result<(), Fail> {
    if table.len() < 3 {
        return Err("fewer rows".into());
    }
    let imsi = table.row(DeviceId(3)).imsi;
    let (rows, len) = (table.rows().len(), table.len());
    let (first, second) = (table.by_imsi(208930000000002), table.by_imsi(2));
    let (third, fourth) = (table.by_tmsi(0), table.by_tmsi(2));
    let told = format!(in alloc; "{len} {rows} {imsi} {first:?} {second:?} {third:?} {fourth:?}")?;
    text.push_str(told.as_str())?;
    Ok(())
}

/// Writes the devices in the order of their IMSIs.
fn tell_order(alloc: Global, table: &SubsTable, text: &mut String) -> Result<(), Fail> {
    let order = table.in_imsi_order(alloc)?;
    let told = format!(in alloc; " {order:?}")?;
    text.push_str(told.as_str())?;
    Ok(())
}

/// What look-ups give, and the order.
const FOUND: &str =
    "3 3 1 Some(DeviceId(2)) None Some(DeviceId(3)) None [DeviceId(3), DeviceId(1), DeviceId(2)]";

#[test]
fn finds_what_was_added(rt: HostRuntime) -> Result<(), Fail> {
    let alloc = rt.alloc();
    let mut table = SubsTable::new(alloc);
    let mut text = String::new(alloc);
    tell_rows(alloc, &mut table, &mut text)?;
    tell_found(alloc, &table, &mut text)?;
    tell_order(alloc, &table, &mut text)?;
    let wanted = format!(in alloc; "{ROWS}\n{FOUND}")?;
    assert_eq!(rt; text.as_str(), wanted.as_str());
    Ok(())
}
