//! The calls of a disk in memory.
ghost use Rattle.std.specs.Prelude.{◌≡◌, ◌++◌, ◌∷◌, []};

use http_server::Log;
use std::marker::Model;

/// A call that changes what a crash may leave.
#[derive(Clone, Copy)]
pub enum Call {
    /// So many octets were written from a place on, or some of them.
    Write {
        /// The place.
        at: u64,
        /// How many octets.
        count: u64,
    },
    /// What was written is on the disk.
    Sync,
}

/// The calls of a disk in their order, each with the octets that reads gave behind it: a history that only proofs read, so that it
/// takes no memory.
#[derive(Drop)]
pub(crate) struct CallLog {
    calls: Log<Call, Vec<u8>>,
}

impl Model for CallLog {
    ghost use Rattle.std.specs.Prelude.{ℕ, List, map};
    ghost use Rattle.store_disk.specs.declared.call_log.Call.{Call};

    ghost Value = { List (Call × List ℕ) };

    ghost view = { λ log. map (λ x. (x.0, x.1.items)) log.calls.items };
}

impl CallLog {
    /// A disk on which those octets are.
    pub(crate) fn new(octets: &Vec<u8>) -> CallLog
        ensures { result ≡ (Call.Sync, octets.now.items) ∷ [] }
    {
        CallLog {
            calls: Log::new().and(&Call::Sync, octets),
        }
    }

    /// The call was made, and reads give those octets behind it.
    pub(crate) fn note(&mut self, call: Call, octets: &Vec<u8>)
        ensures { self.new ≡ self.old ++ (call, octets.now.items) ∷ [] }
    {
        self.calls = self.calls.and(&call, octets);
    }
}
