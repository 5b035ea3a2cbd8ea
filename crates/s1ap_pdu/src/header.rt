//! How a message begins.

ghost use Rattle.std.specs.Prelude.{◌≡◌, ◌*◌, ◌≤◌, ◌<◌, IfSome, OnOk};
ghost use Rattle.echo_base.specs.Reading.{Gives};
ghost use Rattle.aper_fields.specs.Run.{then_written};
ghost use Rattle.s1ap_pdu.specs.Messages.{outcome_index};
ghost use Rattle.s1ap_pdu.specs.Reading.{header_at};
ghost use Rattle.s1ap_pdu.specs.Run.{header_run};

use crate::tables::{MessageKind, kind_with};
use aper_fields::{
    BitReader, BitWriter, Ranged, read_bits_fixed, read_choice, read_criticality, write_bits_fixed,
    write_choice,
};
use echo_base::{OutOfMemory, Reason, Refusal};
use s1ap_ies::Criticality;

/// The alternatives of S1AP-PDU (TS 36.413, 9.3.2).
#[derive(Clone, Copy)]
pub enum Outcome {
    /// An initiating message.
    Initiating,
    /// A successful outcome.
    Successful,
    /// An unsuccessful outcome.
    Unsuccessful,
}

impl Outcome {
    /// The index of the alternative.
    pub fn index(self) -> u8
        ensures index { result ≡ outcome_index self }
        ensures root { result < 3 }
    {
        match self {
            Outcome::Initiating => 0,
            Outcome::Successful => 1,
            Outcome::Unsuccessful => 2,
        }
    }

    /// The alternative with that index.
    fn with_index(index: u64) -> Outcome
        requires { index < 3 }
        ensures { outcome_index result ≡ index }
    {
        match index {
            0 => Outcome::Initiating,
            1 => Outcome::Successful,
            _ => Outcome::Unsuccessful,
        }
    }

    /// The octet that a message begins with: the index behind a bit 0, and five bits more.
    #[inline(always)]
    pub fn octet(self) -> u8
        ensures { result ≡ 32 * outcome_index self }
    {
        32 * self.index()
    }

    /// The alternative with that octet.
    #[inline(always)]
    pub fn with_octet(octet: u8) -> Option<Outcome>
        ensures { IfSome result (λ outcome. octet ≡ 32 * outcome_index outcome) }
    {
        let index = octet / 32;
        if octet % 32 != 0 || index >= 3 {
            return None;
        }
        Some(Outcome::with_index(u64::from(index)))
    }
}

/// The beginning of a message (TS 36.413, 9.3.2).
#[derive(Clone, Copy)]
pub struct Header {
    /// What kind of outcome it is.
    pub outcome: Outcome,
    /// The procedure code (9.3.6).
    pub code: u8,
    /// What a receiver does that does not know the procedure.
    pub criticality: Criticality,
}

/// Reads the header of a message: its outcome in an octet of its own, its procedure code, and its criticality.
#[tactic(auto, unfolding(crate::specs::Reading::header_at))]
pub fn read_header(r: &mut BitReader) -> Result<MessageKind, Refusal>
    ensures { Gives result r.old r.new (header_at r.old) }
{
    let mut ahead = r.ahead();
    let outcome = Outcome::with_index(read_choice(&mut ahead, 3, 2)?);
    let place = ahead.ahead();
    if read_bits_fixed(&mut ahead, 5)? != 0 {
        return Err(place.refusal(Reason::NonZeroPadding));
    }
    let place = ahead.ahead();
    let code = Ranged::<0, 255>::read(&mut ahead)? as u8;
    let Some(kind) = kind_with(outcome, code) else {
        return Err(place.refusal(Reason::OtherProcedure(code)));
    };
    read_criticality(&mut ahead)?;
    *r = ahead;
    Ok(kind)
}

/// Writes the header of a message (TS 36.413, 9.3.2): the CHOICE of the outcome, the procedure code in an octet, and the two
/// bits of the criticality. What stands behind it is an open type. It fails for want of memory alone.
#[tactic(auto, unfolding(crate::specs::Run::header_run))]
pub fn write_header(w: &mut BitWriter, header: Header) -> Result<(), OutOfMemory>
    ensures { OnOk result (w.new ≡ then_written w.old (header_run header)) }
{
    write_choice(w, 2, u64::from(header.outcome.index()))?;
    write_bits_fixed(w, 0, 5)?;
    Ranged::<0, 255>::write(w, u64::from(header.code))?;
    write_bits_fixed(w, u64::from(header.criticality.number()), 2)
}
