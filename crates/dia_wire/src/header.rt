//! The header of a message.

use crate::kind::Command;
use std::marker::Model;

/// What the header says (RFC 6733, 3), and the octets of the AVPs.
#[derive(Drop)]
pub struct Header<'a> {
    /// The command.
    pub command: Command,
    /// Whether it is a request of it.
    pub request: bool,
    /// The Hop-by-Hop Identifier.
    pub hop: u32,
    /// The End-to-End Identifier.
    pub end_to_end: u32,
    /// The place behind the message.
    pub end: u64,
    /// The AVPs.
    pub octets: &'a [u8],
}

impl<'a> Model for Header<'a> {
    ghost use Rattle.dia_wire.specs.Header.{Header};

    ghost Value = { Header };

    ghost view = { λ h. record { command = h.command; request = h.request; hop = h.hop; end_to_end = h.end_to_end; end = h.end; octets = h.octets.now } };
}
