//! The IEs of a message, one behind another: read and written by its table, one function for all messages.

ghost use Rattle.std.specs.Prelude.{◌≡◌, ◌+◌, ◌-◌, ◌<◌, ◌≤◌, List, Option, ◌∷◌, [], ◌++◌, IfSome, OnOk, Some, length, replicate, option_map};
ghost use Rattle.std.specs.List.{AllByRecursion};
ghost use Rattle.protocol_ies.specs.Criticalities.{criticality_number};
ghost use Rattle.protocol_ies.specs.Tables.{no_row};
ghost use Rattle.s1ap_pdu.specs.Messages.{rows_of};
ghost use Rattle.protocol_ies.specs.Slots.{count_of};
ghost use Rattle.s1ap_pdu.specs.Run.{IsRightValue, IsRightField};
ghost use Rattle.s1ap_pdu.specs.Values.{FieldValue};
ghost use Rattle.aper_octets.specs.Octets.{ie_octets};
ghost use Rattle.s1ap_messages.specs.Usual.{value_octets, fields_octets, beginning, IsUsualValue, IsBrief, AreSmallIds, AreFields};

use aper_octets::ie;
use s1ap_ies::Criticality;
use s1ap_pdu::{IeRow, IeTable, MessageKind, header_of, ies_of};
use std::alloc::AllocError;

/// The value of an IE, as it lies in the octets of a message.
pub trait Field<'a>: Copy {
    /// The value that it is.
    ghost meaning: { Self → FieldValue };

    /// Reads it, where all of the octets are it.
    fn read(octets: &'a [u8]) -> Option<Self>
        ensures octets { IfSome result (λ v. octets.now ≡ value_octets (meaning v)) }
        ensures right { IfSome result (λ v. IsUsualValue (meaning v)) };

    /// Puts the IE that it is, with that id and criticality.
    fn put(&self, out: &mut Vec<u8>, id: u16, criticality: Criticality) -> Result<(), AllocError>
        requires id { id < 256 }
        requires right { IsRightValue (meaning self.now) }
        requires brief { IsBrief (meaning self.now) }
        ensures { OnOk result (out.new.items ≡ out.old.items ++ ie_octets id (criticality_number criticality) (value_octets (meaning self.now))) };
}

/// The values of the IEs of a message, each in front of those behind it.
pub trait Fields<'a>: Copy {
    /// The values that they are, in the order of the table.
    ghost meanings: { Self → List (Option FieldValue) };

    /// Reads them, where all of the octets are they.
    fn read(rows: &[IeRow], octets: &'a [u8]) -> Option<Self>
        ensures octets { IfSome result (λ x. octets.now ≡ fields_octets rows.now (meanings x)) }
        ensures right { IfSome result (λ x. AllByRecursion (λ v. IfSome v IsUsualValue) (meanings x)) };

    /// Puts their IEs.
    fn put(&self, out: &mut Vec<u8>, rows: &[IeRow]) -> Result<(), AllocError>
        requires ids { AreSmallIds rows.now }
        requires right { AllByRecursion (λ v. IfSome v IsRightField) (meanings self.now) }
        requires brief { AllByRecursion (λ v. IfSome v IsBrief) (meanings self.now) }
        ensures { OnOk result (out.new.items ≡ out.old.items ++ fields_octets rows.now (meanings self.now)) };

    /// How many IEs of the table are absent.
    fn absent(&self) -> usize
        ensures count { count_of (meanings self.now) + result ≡ length (meanings self.now) }
        ensures few { result ≤ 1 };
}

impl<'a> Fields<'a> for () {
    ghost meanings = { λ x. [] };

    #[inline(always)]
    fn read(rows: &[IeRow], octets: &'a [u8]) -> Option<()> {
        if !octets.is_empty() {
            return None;
        }
        Some(())
    }

    #[inline(always)]
    fn put(&self, out: &mut Vec<u8>, rows: &[IeRow]) -> Result<(), AllocError> {
        Ok(())
    }

    #[inline(always)]
    fn absent(&self) -> usize {
        0
    }
}

impl<'a, A: Field<'a>, B: Fields<'a>> Fields<'a> for (A, B) {
    ghost meanings = { λ x. Some (A.meaning x.0) ∷ B.meanings x.1 };

    #[inline(always)]
    fn read(rows: &[IeRow], octets: &'a [u8]) -> Option<(A, B)> {
        let [row, rows @ ..] = rows else {
            return None;
        };
        let (content, octets) = ie(octets, row.id, row.criticality)?;
        let field = A::read(content)?;
        let others = B::read(rows, octets)?;
        Some((field, others))
    }

    #[inline(always)]
    fn put(&self, out: &mut Vec<u8>, rows: &[IeRow]) -> Result<(), AllocError> {
        let [row, rows @ ..] = rows else {
            return Ok(());
        };
        self.0.put(out, row.id, row.criticality)?;
        self.1.put(out, rows)
    }

    #[inline(always)]
    #[tactic(auto, using(crate::proofs::UsualForm::count_more))]
    fn absent(&self) -> usize {
        self.1.absent()
    }
}

impl<'a, A: Field<'a>> Fields<'a> for Option<A> {
    ghost meanings = { λ x. option_map A.meaning x ∷ [] };

    #[inline(always)]
    #[tactic(auto, using(crate::proofs::UsualForm::absent_octets))]
    fn read(rows: &[IeRow], octets: &'a [u8]) -> Option<Option<A>> {
        if octets.is_empty() {
            return Some(None);
        }
        let (field, ()) = <(A, ()) as Fields<'a>>::read(rows, octets)?;
        Some(Some(field))
    }

    #[inline(always)]
    #[tactic(auto, using(crate::proofs::UsualForm::absent_octets))]
    fn put(&self, out: &mut Vec<u8>, rows: &[IeRow]) -> Result<(), AllocError> {
        match self {
            Some(field) => (*field, ()).put(out, rows),
            None => Ok(()),
        }
    }

    #[inline(always)]
    fn absent(&self) -> usize {
        match self {
            Some(_) => 0,
            None => 1,
        }
    }
}

/// The rows of the table of a kind of message.
#[inline(always)]
#[tactic(auto, using(crate::proofs::UsualForm::rows_taken, s1ap_pdu::proofs::Distinct::few_rows))]
fn rows_in(table: &IeTable, kind: MessageKind) -> &[IeRow]
    requires len { table.now.len ≡ length (rows_of kind) }
    requires rows { table.now.rows ≡ rows_of kind ++ replicate (6 - length (rows_of kind)) no_row }
    ensures { result.now ≡ rows_of kind }
{
    &table.rows[..table.len]
}

/// The IEs of a kind of message and their count, where all of the octets are they.
#[inline(always)]
pub fn read_fields<'a, F: Fields<'a>>(kind: MessageKind, octets: &'a [u8], count: u8) -> Option<F>
    ensures { IfSome result (λ x. AreFields kind octets.now count (F.meanings x)) }
{
    let table = ies_of(kind);
    let fields = F::read(rows_in(&table, kind), octets)?;
    if usize::from(count) + fields.absent() != table.len {
        return None;
    }
    Some(fields)
}

/// Puts what stands before so many IEs of a message of that kind, with an octet of zeros in place of its length.
#[inline(always)]
fn begin(out: &mut Vec<u8>, kind: MessageKind, count: u8) -> Result<(), AllocError>
    ensures { OnOk result (out.new.items ≡ out.old.items ++ beginning kind count) }
{
    let header = header_of(kind);
    let outcome = header.outcome.octet();
    let criticality = 64 * header.criticality.number();
    out.extend_from_slice(&[outcome, header.code, criticality, 0, 0, 0, count])
}

/// Puts the beginning of a message of that kind, and its IEs.
#[inline(always)]
#[tactic(auto, using(crate::proofs::UsualForm::small_ids, s1ap_pdu::proofs::Distinct::few_rows))]
pub fn put_fields<'a, F: Fields<'a>>(
    out: &mut Vec<u8>,
    kind: MessageKind,
    fields: F,
) -> Result<(), AllocError>
    requires len { length (F.meanings fields) ≡ length (rows_of kind) }
    requires right { AllByRecursion (λ v. IfSome v IsRightField) (F.meanings fields) }
    requires brief { AllByRecursion (λ v. IfSome v IsBrief) (F.meanings fields) }
    ensures { OnOk result (out.new.items ≡ out.old.items ++ (beginning kind (count_of (F.meanings fields)) ++ fields_octets (rows_of kind) (F.meanings fields))) }
{
    let table = ies_of(kind);
    begin(out, kind, (table.len - fields.absent()) as u8)?;
    fields.put(out, rows_in(&table, kind))
}
