//! What a Create Session Request says, before it has memory of its own.

ghost use Rattle.std.specs.Prelude.{◌≡◌, Ok, IfOk};
ghost use Rattle.echo_base.specs.Answer.{IsAnswerTaking};
ghost use Rattle.gtp2_wire.specs.Messages.{IsCreate};
ghost use Rattle.gtp2_wire.specs.Written.{IsBody};

use crate::gtp::GtpBody;
use device_types::Octets;
use echo_base::Bad;
use std::alloc::Global;
use std::marker::Model;

/// A Create Session Request that lends its access point name.
#[derive(Drop)]
pub struct CreateParts<'a> {
    /// The IMSI.
    pub imsi: u64,
    /// The bearer.
    pub ebi: u8,
    /// The access point name.
    pub apn: &'a [u8],
    /// The bit rate up.
    pub ul: u32,
    /// The bit rate down.
    pub dl: u32,
    /// The sender's control address.
    pub addr: u32,
    /// The sender's control TEID.
    pub control: u32,
}

impl<'a> Model for CreateParts<'a> {
    ghost use Rattle.gtp2_wire.specs.declared.gtp.GtpBody.{GtpBody};
    ghost use Rattle.gtp2_wire.specs.declared.gtp.GtpBody.TheVariants.{Create};

    ghost Value = { GtpBody };

    ghost view = { λ p. Create p.imsi p.ebi p.apn.now p.ul p.dl p.addr p.control };
}

impl<'a> CreateParts<'a> {
    /// The same with memory of its own.
    pub fn own(self, alloc: Global) -> Result<GtpBody, Bad>
        ensures owned { IsAnswerTaking IsCreate (Ok self.entry) result }
        ensures written { IsBody self.entry → IfOk result IsBody }
    {
        let CreateParts {
            imsi,
            ebi,
            apn,
            ul,
            dl,
            addr,
            control,
        } = self;
        let apn = Octets::from(Vec::from_slice(alloc, apn)?);
        Ok(GtpBody::Create {
            imsi,
            ebi,
            apn,
            ul,
            dl,
            addr,
            control,
        })
    }
}
