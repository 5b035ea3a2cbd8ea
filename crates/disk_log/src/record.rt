//! A record of a log, as octets and back.
ghost use Rattle.std.specs.Prelude.{◌≡◌, ◌≤◌, ◌+◌, ◌++◌, [], length};
ghost use Rattle.disk_log.specs.Record.{HasRoom, piece_of, record_behind, size_of, first_record};

use byteorder::{BigEndian, ByteOrder};
use std::marker::Model;

/// How many octets the head of a record takes: 4 for the device, 8 for the version, 2 for how many the session has.
const HEAD: usize = 14;

/// The octets of a session, at most, in a record that is written.
pub const MOST_SESSION: usize = 241;

/// The octets of a record that is written and of the next gate, at most.
const MOST_PIECE: usize = 256;

/// A step of a device: the version of its row behind the step, and the octets of its session.
#[derive(Drop)]
pub struct Record<'a> {
    device: u32,
    version: u64,
    session: &'a [u8],
}

impl<'a> Model for Record<'a> {
    ghost use Rattle.disk_log.specs.Record.{LogRecord, HasRoom};

    ghost Value = { LogRecord };

    ghost view = { λ r. record { device = r.device; version = r.version; session = r.session.now } };

    ghost invariant = { λ r. HasRoom (record { device = r.device; version = r.version; session = r.session.now }) };
}

impl<'a> Record<'a> {
    /// The record of a step.
    pub fn new(device: u32, version: u64, session: &'a [u8]) -> Record<'a>
        requires { length session.now ≤ MOST_SESSION }
        ensures { result ≡ record { device = device; version = version; session = session.now } }
    {
        Record {
            device,
            version,
            session,
        }
    }

    /// The record in front of these octets, where all of it is there and a next gate behind it. It takes no memory.
    #[tactic(auto, unfolding(crate::specs::Record::first_record))]
    pub fn first(octets: &'a [u8]) -> Option<Record<'a>>
        ensures { result ≡ first_record octets.now }
    {
        let (head, behind) = octets.split_at_checked(HEAD)?;
        Record::behind(head, behind)
    }

    /// The record of a head and of what stands behind it.
    #[tactic(auto, unfolding(crate::specs::Record::record_behind))]
    fn behind(head: &'a [u8], behind: &'a [u8]) -> Option<Record<'a>>
        requires { length head.now ≡ 14 }
        ensures { result ≡ record_behind head.now behind.now }
    {
        let count = BigEndian::read_u16(&head[12..]) as usize;
        if count >= behind.len() {
            return None;
        }
        Some(Record {
            device: BigEndian::read_u32(head),
            version: BigEndian::read_u64(&head[4..]),
            session: &behind[..count],
        })
    }

    /// The device.
    pub fn device(&self) -> u32
        ensures { result ≡ self.now.device }
    {
        self.device
    }

    /// The version of its row behind the step.
    pub fn version(&self) -> u64
        ensures { result ≡ self.now.version }
    {
        self.version
    }

    /// The octets of its session.
    pub fn session(&self) -> &'a [u8]
        ensures { result.now ≡ self.now.session }
    {
        self.session
    }

    /// How many octets it takes.
    pub fn size(&self) -> usize
        ensures { result ≡ size_of self.now }
    {
        HEAD + self.session.len()
    }

    /// What is written behind an open gate: its octets, and the next gate, which is closed.
    #[tactic(auto, unfolding(crate::specs::Record::head_of))]
    pub(crate) fn piece(&self) -> Piece
        requires { length self.now.session ≤ MOST_SESSION }
        ensures octets { result ≡ piece_of self.now }
        ensures room { HasRoom self.now }
    {
        let mut piece = Piece::new();
        piece.put(&self.device.to_be_bytes());
        piece.put(&self.version.to_be_bytes());
        piece.put(&(self.session.len() as u16).to_be_bytes());
        piece.put(self.session);
        piece.put(&[0]);
        piece
    }
}

/// Octets behind one another, with room for the longest piece. They take no memory.
#[derive(Drop)]
pub(crate) struct Piece {
    octets: [u8; MOST_PIECE],
    used: usize,
}

impl Model for Piece {
    ghost use Rattle.std.specs.Prelude.{ℕ, ◌≤◌, List, take};
    ghost use Rattle.disk_log.specs.declared.record.TheConstants.{MOST_PIECE};

    ghost Value = { List ℕ };

    ghost view = { λ piece. take piece.used piece.octets };

    ghost invariant = { λ piece. piece.used ≤ MOST_PIECE };
}

impl Piece {
    /// No octets.
    fn new() -> Piece
        ensures { result ≡ [] }
    {
        Piece {
            octets: [0; MOST_PIECE],
            used: 0,
        }
    }

    /// Puts octets behind these.
    fn put(&mut self, octets: &[u8])
        requires { length self.old + length octets.now ≤ MOST_PIECE }
        ensures octets { self.new ≡ self.old ++ octets.now }
        ensures count { length self.new ≡ length self.old + length octets.now }
    {
        let end = self.used + octets.len();
        self.octets[self.used..end].copy_from_slice(octets);
        self.used = end;
    }

    /// The octets.
    pub(crate) fn octets(&self) -> &[u8]
        ensures { result.now ≡ self.now }
    {
        &self.octets[..self.used]
    }
}
