//! Reading and writing in turns.

ghost use Rattle.std.specs.Prelude.{◌≡◌, ◌*◌, All, IfErr, IfOk, IsTrue, count_by, length};
ghost use Rattle.echo_base.specs.declared.refusal.Bad.TheVariants as bad;
ghost use Rattle.s1ap_pdu.specs.Run.{written};
ghost use Rattle.codec_bench.specs.Sample.{IsSample, is_as_written};

use crate::sample::Sample;
use device_types::Octets;
use echo_base::{Bad, OutOfMemory};
use s1ap_messages::{Pdu, read_pdu, write_pdu};
use std::alloc::Global;

/// Reads the octets of a sample: its message again, given as it was read. It fails for want of memory alone. It is not inlined, so
/// that no reading is left out or shared.
#[inline(never)]
fn read_again(alloc: Global, sample: &Sample) -> Result<Pdu, Bad>
    requires { IsSample sample.now }
    ensures ok { IfOk result (λ pdu. pdu ≡ sample.now.pdu) }
    ensures err { IfErr result (λ e. e ≡ bad.OutOfMemory) }
{
    read_pdu(alloc, sample.octets.items())
}

/// Writes the message of a sample. It is not inlined, so that no writing is left out or shared.
#[inline(never)]
fn write_again(alloc: Global, sample: &Sample) -> Result<Octets, OutOfMemory>
    requires { IsSample sample.now }
    ensures { IfOk result (λ octets. octets ≡ written sample.now.pdu) }
{
    write_pdu(alloc, &sample.pdu)
}

/// Are the octets of a sample those that are written for its message?
fn is_as_written(alloc: Global, sample: &Sample) -> Result<bool, OutOfMemory>
    requires { IsSample sample.now }
    ensures { IfOk result (λ same. same ≡ is_as_written sample.now) }
{
    let octets = write_again(alloc, sample)?;
    Ok(octets.items() == sample.octets.items())
}

/// How many samples have the octets that are written for their messages.
pub fn count_as_written(alloc: Global, samples: &[Sample]) -> Result<usize, OutOfMemory>
    requires { All IsSample samples.now }
    ensures { IfOk result (λ count. count ≡ count_by is_as_written samples.now) }
{
    let mut count = 0;
    for sample in samples {
        if is_as_written(alloc, sample)? {
            count += 1;
        }
    }
    Ok(count)
}

/// Is the message that was read of the kind of its sample?
fn is_alike(pdu: &Pdu, sample: &Sample) -> bool
    requires { pdu.now ≡ sample.now.pdu }
    ensures { IsTrue result }
{
    pdu.kind() == sample.pdu.kind()
}

/// Has what was written for a sample some octets?
fn is_something(octets: &Octets, sample: &Sample) -> bool
    requires { octets.now ≡ written sample.now.pdu }
    ensures { IsTrue result }
{
    !octets.items().is_empty()
}

/// Reads each sample once: how many messages were read.
fn read_each(alloc: Global, samples: &[Sample]) -> Result<usize, OutOfMemory>
    requires { All IsSample samples.now }
    ensures { IfOk result (λ count. count ≡ length samples.now) }
{
    let mut count = 0;
    for sample in samples {
        let Ok(pdu) = read_again(alloc, sample) else {
            return Err(OutOfMemory);
        };
        count += usize::from(is_alike(&pdu, sample));
    }
    Ok(count)
}

/// Writes each sample once: how many messages were written.
fn write_each(alloc: Global, samples: &[Sample]) -> Result<usize, OutOfMemory>
    requires { All IsSample samples.now }
    ensures { IfOk result (λ count. count ≡ length samples.now) }
{
    let mut count = 0;
    for sample in samples {
        let octets = write_again(alloc, sample)?;
        count += usize::from(is_something(&octets, sample));
    }
    Ok(count)
}

/// Reads all samples so many times: how many messages were read.
pub fn read_turns(alloc: Global, samples: &[Sample], turns: u32) -> Result<u128, OutOfMemory>
    requires { All IsSample samples.now }
    ensures { IfOk result (λ count. count ≡ turns * length samples.now) }
{
    let mut count = 0;
    for _ in 0..turns {
        count += read_each(alloc, samples)? as u128;
    }
    Ok(count)
}

/// Writes all samples so many times: how many messages were written.
pub fn write_turns(alloc: Global, samples: &[Sample], turns: u32) -> Result<u128, OutOfMemory>
    requires { All IsSample samples.now }
    ensures { IfOk result (λ count. count ≡ turns * length samples.now) }
{
    let mut count = 0;
    for _ in 0..turns {
        count += write_each(alloc, samples)? as u128;
    }
    Ok(count)
}
