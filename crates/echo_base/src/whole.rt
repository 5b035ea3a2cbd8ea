//! All that a source gives, and all that a sink is to take.
ghost use Rattle.std.specs.Prelude.{◌≡◌, ◌≢◌, ◌+◌, ◌≤◌, ◌++◌, List, ℕ, IfOk, OnOk, IfErr, OnErr, IsErrOf, length, vec_len};
ghost use Rattle.echo_base.specs.Outside.{IsTaken, IsTakenBy, IsAtEnd, IsPut, Rose};

use crate::{OutOfMemory, ReadStep, Sink, Source, WriteStep};
use std::alloc::Global;

/// Why not all of a source was read.
#[derive(Clone, Copy, Debug, PartialEq, Eq)]
pub enum ReadAll {
    /// The source failed.
    ReadFault,
    /// More octets came than were wanted.
    TooLong,
    /// There was no memory for what was read.
    OutOfMemory,
}

impl From<OutOfMemory> for ReadAll {
    ghost use Rattle.std.specs.Prelude.{◌≡◌};
    ghost use Rattle.echo_base.specs.declared.whole.ReadAll.TheVariants.{OutOfMemory};

    ghost from_gives = { λ _ e. e ≡ OutOfMemory };

    fn from(_refused: OutOfMemory) -> ReadAll {
        ReadAll::OutOfMemory
    }
}

/// The sink failed before all was written.
#[derive(Clone, Copy, Debug, PartialEq, Eq)]
pub struct WriteFault;

const PIECE: usize = 4096;

/// All octets of a source up to its end, at most `limit` of them. It asks for `limit + 1` octets at most.
///
/// `ReadFault` comes where the source failed, `TooLong` exactly where `limit + 1` octets came, and
/// `OutOfMemory` where they could not be stored. The source then stands behind what was read.
pub fn read_all<S: Source>(alloc: Global, source: &mut S, limit: usize) -> Result<Vec<u8>, ReadAll>
    ensures ok { IfOk result (λ v. IsTaken (S.left source.old) v.items (S.left source.new)) }
    ensures end { OnOk result (IsAtEnd (S.left source.new)) }
    ensures fits { IfOk result (λ v. vec_len v ≤ limit) }

    ensures quiet { OnOk result (S.faults source.new ≡ S.faults source.old) }
    ensures quiet_err { IfErr result (λ e. e ≢ ReadAll.ReadFault → S.faults source.new ≡ S.faults source.old) }
    ensures fault { IsErrOf result ReadAll.ReadFault → Rose (S.faults source.old) (S.faults source.new) }
    ensures too_long { IsErrOf result ReadAll.TooLong
        → IsTakenBy (λ n. n ≡ limit + 1) (S.left source.old) (S.left source.new) }
    ensures short { IfErr result (λ e. e ≢ ReadAll.TooLong
        → IsTakenBy (λ n. n ≤ limit) (S.left source.old) (S.left source.new)) }
    ensures count { S.faults source.old ≤ S.faults source.new }
{
    let mut bytes = Vec::new(alloc);
    let mut buffer = [0u8; PIECE];
    'pieces: loop {
        let room = (limit - bytes.len()).min(PIECE - 1) + 1;
        match source.read(&mut buffer[..room]) {
            ReadStep::End => return Ok(bytes),
            ReadStep::Failed => return Err(ReadAll::ReadFault),
            ReadStep::Got(n) => {
                if n > limit - bytes.len() {
                    return Err(ReadAll::TooLong);
                }
                bytes.extend_from_slice(&buffer[..n])?;
            }
        }
    }
}

/// Writes all of `bytes`, and takes no memory. Where there is nothing to write the sink is left alone.
///
/// `WriteFault` comes where the sink failed; a front of `bytes` was taken then.
pub fn write_all<K: Sink>(out: &mut K, bytes: &[u8]) -> Result<(), WriteFault>
    ensures ok { OnOk result (IsPut (K.held out.old) bytes.now (K.held out.new)) }
    ensures quiet { OnOk result (K.faults out.new ≡ K.faults out.old) }
    ensures fault { OnErr result (Rose (K.faults out.old) (K.faults out.new)) }
    ensures front { OnErr result ((piece rest : List ℕ) × (bytes.now ≡ piece ++ rest)
        × IsPut (K.held out.old) piece (K.held out.new)) }
    ensures nothing { length bytes.now ≡ 0 → out.new ≡ out.old }
    ensures count { K.faults out.old ≤ K.faults out.new }
{
    let mut done = 0;
    while done < bytes.len() {
        match out.write(&bytes[done..]) {
            WriteStep::Took(n) => done += n,
            WriteStep::Failed => return Err(WriteFault),
        }
    }
    Ok(())
}
