//! What opening a store and committing to it may come to, besides their answers.
ghost use Rattle.std.specs.Prelude.{◌≡◌};
ghost use Rattle.session_disk.specs.Causes.{cause_of};
ghost use Rattle.session_disk.specs.declared.fault.DiskBad.TheVariants as bads;
ghost use Rattle.session_disk.specs.declared.fault.OpenCause.TheVariants as causes;

use device_types::{Entry, NoRoom};
use disk_log::LogFault;
use std::alloc::AllocError;
use store_disk::DiskFault;

/// Why a store was not opened.
#[derive(Clone, Copy, Debug)]
pub enum OpenCause {
    /// The gate at that place is the first that is open without a whole record that fits, and a next gate.
    Foreign {
        /// The place of the gate.
        at: u64,
    },
    /// A call of the disk failed.
    DiskFault,
    /// There was no memory.
    OutOfMemory,
}

impl From<LogFault> for OpenCause {
    ghost from_gives = { λ fault cause. cause ≡ cause_of fault };

    fn from(fault: LogFault) -> OpenCause {
        match fault {
            LogFault::DiskFault => OpenCause::DiskFault,
            LogFault::OutOfMemory => OpenCause::OutOfMemory,
        }
    }
}

impl From<AllocError> for OpenCause {
    ghost from_gives = { λ _ cause. cause ≡ causes.OutOfMemory };

    fn from(_: AllocError) -> OpenCause {
        OpenCause::OutOfMemory
    }
}

/// A store was not opened: its disk comes back.
#[derive(Drop)]
pub struct OpenFault<D> {
    /// The disk.
    pub disk: D,
    /// Why.
    pub cause: OpenCause,
}

/// A commit was not made, or is not known to be.
#[derive(Drop)]
pub enum DiskBad {
    /// There was no memory. Nothing changed, and the entry comes back.
    NoRoom(Entry),
    /// A call of the disk failed. The store is not open any more: its disk, which has the commit or has it not, is to be opened
    /// again.
    DiskFault,
}

impl From<NoRoom<Entry>> for DiskBad {
    ghost from_gives = { λ room bad. bad ≡ bads.NoRoom room.0 };

    fn from(room: NoRoom<Entry>) -> DiskBad {
        let NoRoom(entry) = room;
        DiskBad::NoRoom(entry)
    }
}

impl From<DiskFault> for DiskBad {
    ghost from_gives = { λ _ bad. bad ≡ bads.DiskFault };

    fn from(_: DiskFault) -> DiskBad {
        DiskBad::DiskFault
    }
}
