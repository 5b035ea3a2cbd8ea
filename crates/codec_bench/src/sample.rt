//! The messages that are read and written.

ghost use Rattle.std.specs.Prelude.{◌≡◌, IfOk, IfErr};
ghost use Rattle.hex.specs.Hex.{decode_of};
ghost use Rattle.codec_bench.specs.Sample.{IsSampleOf, IsDueTo};

use device_types::Octets;
use echo_base::{Bad, Refusal, decode_hex};
use s1ap_messages::{Pdu, read_pdu};
use std::alloc::Global;
use thiserror::Error;

/// A message: its octets, and what they are.
#[derive(Debug, Drop)]
pub struct Sample {
    /// The octets.
    pub octets: Octets,
    /// The message.
    pub pdu: Pdu,
}

/// Why a line is no sample.
#[derive(Debug, Drop, Error)]
pub enum SampleError {
    /// It has other characters than hexadecimal digits, or an odd number of them.
    #[error("not hexadecimal")]
    NotHex,
    /// Its octets are not a message.
    #[error("refused: {0}")]
    Refused(Refusal),
    /// There was no memory.
    #[error("out of memory")]
    OutOfMemory,
}

/// The octets of a line of hexadecimal digits.
fn decode(alloc: Global, line: &str) -> Result<Octets, SampleError>
    ensures ok { IfOk result (λ octets. decode_of line.now ≡ Ok octets) }
    ensures err { IfErr result (IsDueTo line.now) }
{
    match decode_hex(alloc, line.as_bytes()) {
        Ok(Some(octets)) => Ok(Octets::from(octets)),
        Ok(None) => Err(SampleError::NotHex),
        Err(_) => Err(SampleError::OutOfMemory),
    }
}

/// The message of a line of hexadecimal digits.
pub fn read_sample(alloc: Global, line: &str) -> Result<Sample, SampleError>
    ensures ok { IfOk result (IsSampleOf line.now) }
    ensures err { IfErr result (IsDueTo line.now) }
{
    let octets = decode(alloc, line)?;
    match read_pdu(alloc, octets.items()) {
        Ok(pdu) => Ok(Sample { octets, pdu }),
        Err(Bad::Refused(refusal)) => Err(SampleError::Refused(refusal)),
        Err(Bad::OutOfMemory) => Err(SampleError::OutOfMemory),
    }
}
