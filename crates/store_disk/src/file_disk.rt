//! A disk that is a file of the system.
ghost use Rattle.std.specs.Prelude.{◌≡◌, ◌≤◌, None, OnErr};
ghost use Rattle.echo_base.specs.Outside.{Rose};

use crate::disk::{Disk, DiskFault};
use std::fs::File;
use std::io;
use std::marker::Model;
use std::os::unix::fs::FileExt;

/// A disk over an open file. It tells nothing of its octets: no contract says what a real file does.
#[derive(Drop)]
pub struct FileDisk {
    file: File,
    faults: u64,
}

impl Model for FileDisk {
    ghost use Rattle.std.specs.Prelude.{ℕ};

    ghost Value = { ℕ };

    ghost view = { λ disk. disk.faults };
}

impl FileDisk {
    /// A disk over this file, with no fault so far. The file is to be open for reads and writes, and nothing else writes into it.
    pub fn new(file: File) -> FileDisk
        ensures { result ≡ 0 }
    {
        FileDisk { file, faults: 0 }
    }

    /// What a call of the file came to: each error is a fault, also that of a call which was interrupted.
    fn counted<T>(&mut self, answer: io::Result<T>) -> Result<T, DiskFault>
        ensures failed { OnErr result (Rose self.old self.new) }
        ensures count { self.old ≤ self.new }
    {
        match answer {
            Ok(value) => Ok(value),
            Err(_) => {
                self.faults = self.faults.saturating_add(1);
                Err(DiskFault)
            }
        }
    }
}

impl Disk for FileDisk {
    ghost bytes = { λ _. None };

    ghost faults = { λ disk. disk };

    ghost moment = { λ _. 0 };

    ghost may_leave = { λ _ image. ⊥ };

    ghost left_since = { λ _ t image. ⊥ };

    ghost counts_now = { λ disk t image before now. now };

    ghost only_now = { λ disk image since. since };

    fn len(&mut self) -> Result<u64, DiskFault> {
        let answer = self.file.metadata().map(|attributes| attributes.len());
        self.counted(answer)
    }

    fn read_at(&mut self, at: u64, into: &mut [u8]) -> Result<(), DiskFault> {
        let answer = self.file.read_exact_at(into, at);
        self.counted(answer)
    }

    fn write_at(&mut self, at: u64, piece: &[u8]) -> Result<(), DiskFault> {
        let answer = self.file.write_all_at(piece, at);
        self.counted(answer)
    }

    fn sync(&mut self) -> Result<(), DiskFault> {
        let answer = self.file.sync_data();
        self.counted(answer)
    }
}
