//! The two protocols as one: what either tells of octets.

use device_types::Octets;
use dia_wire::{DiaBody, read_dia, write_dia};
use echo_base::Bad;
use gtp2_wire::{GtpBody, read_gtp, write_gtp};
use std::alloc::{AllocError, Global};

/// A protocol of the peers.
#[derive(Clone, Copy)]
pub(crate) enum Wire {
    /// GTPv2-C.
    Gtp,
    /// Diameter S6a.
    Dia,
}

/// What is told of octets that are a message. Of others it is why they are refused.
#[derive(Clone, Copy)]
pub(crate) enum Telling {
    /// That they are read.
    Read,
    /// The name of what the message says.
    Name,
    /// Its written form, in hexadecimal digits.
    Form,
    /// All that it says, where the octets are its written form.
    Fields,
}

/// The name of what a message of GTPv2-C says.
fn name_of_gtp(body: &GtpBody) -> &'static str {
    match body {
        GtpBody::Create { .. } => "Create",
        GtpBody::Created { .. } => "Created",
        GtpBody::Modify { .. } => "Modify",
        GtpBody::Modified { .. } => "Modified",
        GtpBody::Delete { .. } => "Delete",
        GtpBody::Deleted => "Deleted",
        GtpBody::Release => "Release",
        GtpBody::Released => "Released",
        GtpBody::Rejected { .. } => "Rejected",
    }
}

/// The name of what a message of Diameter says.
fn name_of_dia(body: &DiaBody) -> &'static str {
    match body {
        DiaBody::AskVectors { .. } => "AskVectors",
        DiaBody::AskLocation { .. } => "AskLocation",
        DiaBody::AskPurge { .. } => "AskPurge",
        DiaBody::Vectors { .. } => "Vectors",
        DiaBody::Located { .. } => "Located",
        DiaBody::Purged => "Purged",
        DiaBody::Rejected { .. } => "Rejected",
    }
}

impl Wire {
    /// The last place at which a header that is cut is told of: that of its length.
    pub(crate) fn length_place(self) -> usize {
        match self {
            Wire::Gtp => 2,
            Wire::Dia => 1,
        }
    }

    /// How many octets a length does not count.
    pub(crate) fn uncounted(self) -> usize {
        match self {
            Wire::Gtp => 4,
            Wire::Dia => 0,
        }
    }

    /// The first and the last place of the type or the command.
    pub(crate) fn kind_places(self) -> (usize, usize) {
        match self {
            Wire::Gtp => (1, 1),
            Wire::Dia => (5, 7),
        }
    }

    /// The refusal of a type, or of a command with that last octet, that is not read.
    pub(crate) fn unread(self, alloc: Global, kind: u8) -> Result<String, AllocError> {
        match self {
            Wire::Gtp => format!(in alloc; "41 GtpType {kind} at 1"),
            Wire::Dia => format!(in alloc; "51 DiaCommand {} at 5", 256 + u32::from(kind)),
        }
    }

    /// The name of what the octets say.
    fn name(self, alloc: Global, octets: &[u8]) -> Result<&'static str, Bad> {
        match self {
            Wire::Gtp => Ok(name_of_gtp(&read_gtp(alloc, octets)?.body)),
            Wire::Dia => Ok(name_of_dia(&read_dia(alloc, octets)?.body)),
        }
    }

    /// What is written for the message that the octets are.
    fn form(self, alloc: Global, octets: &[u8]) -> Result<Octets, Bad> {
        match self {
            Wire::Gtp => Ok(write_gtp(alloc, &read_gtp(alloc, octets)?)?),
            Wire::Dia => Ok(write_dia(alloc, &read_dia(alloc, octets)?)?),
        }
    }

    /// All that the octets say, where they are what is written for it.
    fn fields(self, alloc: Global, octets: &[u8]) -> Result<String, Bad> {
        if self.form(alloc, octets)?.items() != octets {
            return Ok(String::from_str(alloc, "written otherwise")?);
        }
        match self {
            Wire::Gtp => Ok(format!(in alloc; "{:?}", read_gtp(alloc, octets)?)?),
            Wire::Dia => Ok(format!(in alloc; "{:?}", read_dia(alloc, octets)?)?),
        }
    }

    /// What is told of octets that are a message.
    fn said(self, alloc: Global, telling: Telling, octets: &[u8]) -> Result<String, Bad> {
        match telling {
            Telling::Read => {
                self.name(alloc, octets)?;
                Ok(String::from_str(alloc, "read")?)
            }
            Telling::Name => Ok(String::from_str(alloc, self.name(alloc, octets)?)?),
            Telling::Form => Ok(hex::encode(alloc, self.form(alloc, octets)?.items())?),
            Telling::Fields => self.fields(alloc, octets),
        }
    }

    /// What is told of octets.
    pub(crate) fn told(
        self,
        alloc: Global,
        telling: Telling,
        octets: &[u8],
    ) -> Result<String, AllocError> {
        match self.said(alloc, telling, octets) {
            Ok(said) => Ok(said),
            Err(Bad::Refused(refusal)) => format!(in alloc; "{refusal}"),
            Err(Bad::OutOfMemory) => Err(AllocError),
        }
    }
}
