//! Writing messages.

ghost use Rattle.std.specs.Prelude.{◌≡◌, OnOk, IfOk, IfSome, option_map, length};
ghost use Rattle.std.specs.List.{AllByRecursion};
ghost use Rattle.aper_fields.specs.Run.{then_written};
ghost use Rattle.s1ap_pdu.specs.Messages.{rows_of};
ghost use Rattle.s1ap_pdu.specs.Messages.{kind_of, values_of};
ghost use Rattle.s1ap_pdu.specs.Values.{seen, all_seen};
ghost use Rattle.s1ap_pdu.specs.Run.{ie_run, fields_run, ies_run, written, IsRightField, IsRight};

use crate::header::write_header;
use crate::pdu::Pdu;
use crate::tables::{MessageKind, header_of, ies_of};
use crate::value::{LentValue, write_value};
use aper_fields::{BitWriter, Ranged, begin_open, end_open, write_bits_fixed};
use device_types::Octets;
use echo_base::OutOfMemory;
use protocol_ies::{IeRow, count_of, rows};
use s1ap_ies::begin_item;
use std::alloc::Global;

/// Writes an IE with the id and criticality of its row, where the message has it.
#[tactic(auto, unfolding(crate::specs::Run::ie_run))]
fn write_ie(w: &mut BitWriter, row: &IeRow, value: &Option<LentValue>) -> Result<(), OutOfMemory>
    requires right { IfSome (option_map seen value.now) IsRightField }
    ensures { OnOk result (w.new ≡ then_written w.old (ie_run row.now (option_map seen value.now))) }
{
    let Some(value) = value else {
        return Ok(());
    };
    let start = begin_item(w, row.id, row.criticality)?;
    write_value(w, value)?;
    end_open(w, start)
}

/// Writes an IE for each row whose value is there, in the order of the rows. It fails for want of memory alone.
#[tactic(auto, unfolding(crate::specs::Run::fields_run))]
fn write_fields(
    w: &mut BitWriter,
    rows: &[IeRow],
    values: &[Option<LentValue>],
) -> Result<(), OutOfMemory>
    requires right { AllByRecursion (λ v. IfSome v IsRightField) (all_seen values.now) }
    ensures { OnOk result (w.new ≡ then_written w.old (fields_run rows.now (all_seen values.now))) }
{
    let mut rows = rows;
    let mut values = values;
    while let [row, later @ ..] = rows {
        let [value, others @ ..] = values else {
            return Ok(());
        };
        write_ie(w, row, value)?;
        rows = later;
        values = others;
    }
    Ok(())
}

/// Writes the SEQUENCE of IEs of a table, with their values.
#[tactic(auto, unfolding(crate::specs::Run::ies_run), using(crate::proofs::Writes::count_seen))]
fn write_ies(
    w: &mut BitWriter,
    kind: MessageKind,
    values: &[Option<LentValue>],
) -> Result<(), OutOfMemory>
    requires length { length values.now ≡ length (rows_of kind) }
    requires right { AllByRecursion (λ v. IfSome v IsRightField) (all_seen values.now) }
    ensures { OnOk result (w.new ≡ then_written w.old (ies_run kind (all_seen values.now))) }
{
    let table = ies_of(kind);
    write_bits_fixed(w, 0, 1)?;
    Ranged::<0, 65535>::write(w, count_of(values) as u64)?;
    write_fields(w, rows(&table), values)
}

/// Writes the SEQUENCE of a message's IEs (TS 36.413, 9.1), which is what the open type behind its header contains. It fails
/// for want of memory alone.
fn write_body(w: &mut BitWriter, p: &Pdu) -> Result<(), OutOfMemory>
    requires { AllByRecursion (λ v. IfSome v IsRightField) (values_of p.now) }
    ensures { OnOk result (w.new ≡ then_written w.old (ies_run (kind_of p.now) (values_of p.now))) }
{
    let kind = p.kind();
    write_ies(w, kind, &p.values()[..ies_of(kind).len])
}

/// Writes a message piece by piece, whatever it is: its IEs in the order of its table (TS 36.413, 9.1). The octets are begun
/// once: what an open type contains is written where it stands, and counted then. It fails for want of memory alone.
pub fn write_pieces(alloc: Global, p: &Pdu) -> Result<Octets, OutOfMemory>
    requires { IsRight p.now }
    ensures { IfOk result (λ octets. octets ≡ written p.now) }
{
    let mut w = BitWriter::new(alloc);
    write_header(&mut w, header_of(p.kind()))?;
    let start = begin_open(&mut w)?;
    write_body(&mut w, p)?;
    end_open(&mut w, start)?;
    Ok(Octets::from(w.into_bytes()))
}
