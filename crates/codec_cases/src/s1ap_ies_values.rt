//! The values of the tables, read and written.

ghost use Rattle.std.specs.Prelude.{IfOk};
ghost use Rattle.aper_fields.specs.Asn1.{IsSound, CanBeWritten};

use crate::s1ap_ies_tables::{
    BIT_RATES, CAUSES, CGIS, ERABS_DONE, ERABS_TO_ADD, ERABS_TO_SETUP, SEC_CAPS, STMSIS, TAIS,
    UE_IDS,
};
use crate::tables::{is_case, octets_of};
use aper_fields::{BitReader, BitWriter, end};
use echo_base::{Bad, OutOfMemory};
use s1ap_ies::{
    BitRates, Cause, Cgi, ErabDone, ErabToAdd, ErabToSetup, OwnedValue, PlainValue, SecCaps, Stmsi,
    Tai, UeIds,
};
use std::alloc::Global;
use std::fmt::Debug;
use std::test::Fail;

/// Writes what was written, where that is not the octets.
fn tell_written(
    alloc: Global,
    text: &mut String,
    written: &[u8],
    octets: &[u8],
) -> Result<(), OutOfMemory> {
    if written == octets {
        return Ok(());
    }
    let digits = hex::encode(alloc, written)?;
    write!(text, " as {digits}")
}

/// Writes what the value is written as, where that is not the octets.
fn tell_octets<T: OwnedValue>(
    alloc: Global,
    text: &mut String,
    value: &T,
    octets: &[u8],
) -> Result<(), OutOfMemory>
    requires { CanBeWritten T.asn1 value.now }
{
    let mut w = BitWriter::new(alloc);
    value.write(&mut w)?;
    tell_written(alloc, text, w.bytes(), octets)
}

/// Writes what stands behind a value, where that is not the end of its container: the UE S1AP IDs that are read there.
fn tell_rest(text: &mut String, r: &mut BitReader) -> Result<(), OutOfMemory> {
    if end(r).is_ok() {
        return Ok(());
    }
    let next = <UeIds as PlainValue>::read(r);
    write!(text, ", then {next:?}")
}

/// Writes a value that was read of the octets, how it is written, and what stands behind it.
fn tell_value<T: OwnedValue + Debug>(
    alloc: Global,
    text: &mut String,
    value: &T,
    octets: &[u8],
    r: &mut BitReader,
) -> Result<(), OutOfMemory>
    requires { CanBeWritten T.asn1 value.now }
{
    write!(text, "{value:?}")?;
    tell_octets(alloc, text, value, octets)?;
    tell_rest(text, r)
}

/// Reads a value, which can be written then.
fn read_value<T: OwnedValue>(alloc: Global, r: &mut BitReader) -> Result<T, Bad>
    requires { IsSound T.asn1 }
    ensures { IfOk result (λ value. CanBeWritten T.asn1 value) }
{
    <T as OwnedValue>::read(alloc, r)
}

/// Writes what the octets are read as: the value, how it is written, and what stands behind it; or the refusal.
fn tell<T: OwnedValue + Debug>(
    alloc: Global,
    text: &mut String,
    octets: &[u8],
) -> Result<(), OutOfMemory>
    requires { IsSound T.asn1 }
{
    let mut r = BitReader::new(octets, 0);
    match read_value::<T>(alloc, &mut r) {
        Ok(value) => tell_value(alloc, text, &value, octets, &mut r),
        Err(Bad::Refused(refusal)) => write!(text, "{refusal}"),
        Err(Bad::OutOfMemory) => Err(OutOfMemory),
    }
}

/// Writes a case again, with what its octets are read as.
fn tell_case<T: OwnedValue + Debug>(
    alloc: Global,
    text: &mut String,
    case: &str,
) -> Result<(), Fail>
    requires { IsSound T.asn1 }
{
    let octets = octets_of(alloc, text, case)?;
    Ok(tell::<T>(alloc, text, &octets)?)
}

/// Writes a table again, with what the octets of each case are read as.
fn tell_each<T: OwnedValue + Debug>(
    alloc: Global,
    text: &mut String,
    table: &str,
) -> Result<(), Fail>
    requires { IsSound T.asn1 }
{
    for line in table.lines() {
        if is_case(line) {
            tell_case::<T>(alloc, text, line)?;
        } else {
            text.push_str(line)?;
        }
        text.push('\n')?;
    }
    Ok(())
}

/// All tables of values, one behind another.
fn wanted(alloc: Global) -> Result<String, OutOfMemory> {
    let mut text = String::new(alloc);
    for table in [
        TAIS,
        CGIS,
        STMSIS,
        BIT_RATES,
        SEC_CAPS,
        CAUSES,
        UE_IDS,
        ERABS_DONE,
        ERABS_TO_SETUP,
        ERABS_TO_ADD,
    ] {
        text.push_str(table)?;
    }
    Ok(text)
}

/// All tables, with what the octets of each case are read as.
fn tell_all(alloc: Global, text: &mut String) -> Result<(), Fail> {
    tell_each::<Tai>(alloc, text, TAIS)?;
    tell_each::<Cgi>(alloc, text, CGIS)?;
    tell_each::<Stmsi>(alloc, text, STMSIS)?;
    tell_each::<BitRates>(alloc, text, BIT_RATES)?;
    tell_each::<SecCaps>(alloc, text, SEC_CAPS)?;
    tell_each::<Cause>(alloc, text, CAUSES)?;
    tell_each::<UeIds>(alloc, text, UE_IDS)?;
    tell_each::<ErabDone>(alloc, text, ERABS_DONE)?;
    tell_each::<ErabToSetup>(alloc, text, ERABS_TO_SETUP)?;
    tell_each::<ErabToAdd>(alloc, text, ERABS_TO_ADD)
}

#[test]
fn values(rt: HostRuntime) -> Result<(), Fail> {
    let mut text = String::new(rt.alloc());
    tell_all(rt.alloc(), &mut text)?;
    assert_eq!(rt; text.as_str(), wanted(rt.alloc())?.as_str());
    Ok(())
}
