//! What a message says, before and after it has memory of its own.

ghost use Rattle.std.specs.Prelude.{◌≡◌, IfOk};
ghost use Rattle.dia_wire.specs.declared.dia.DiaBody.TheVariants.{Vectors};
ghost use Rattle.dia_wire.specs.Written.{IsVector, IsBody};

use crate::dia::DiaBody;
use device_types::Octets;
use echo_base::OutOfMemory;
use std::alloc::Global;
use std::marker::Model;

/// What a message says.
#[derive(Drop)]
pub struct Said {
    /// The session.
    pub session: Octets,
    /// The rest.
    pub body: DiaBody,
}

/// A message that lends its session, and takes no memory besides.
#[derive(Drop)]
pub struct PlainParts<'a> {
    /// The session.
    pub session: &'a [u8],
    /// The rest.
    pub body: DiaBody,
}

impl<'a> Model for PlainParts<'a> {
    ghost use Rattle.dia_wire.specs.declared.said.Said.{Said};

    ghost Value = { Said };

    ghost view = { λ p. record { session = p.session.now; body = p.body } };
}

/// An Authentication-Information-Answer that lends its octets.
#[derive(Drop)]
pub struct VectorsParts<'a> {
    /// The session.
    pub session: &'a [u8],
    /// The challenge.
    pub rand: &'a [u8],
    /// The response that is expected.
    pub xres: &'a [u8],
    /// The token.
    pub autn: &'a [u8],
    /// The key.
    pub key: &'a [u8],
}

impl<'a> Model for VectorsParts<'a> {
    ghost use Rattle.dia_wire.specs.declared.dia.DiaBody.TheVariants.{Vectors};
    ghost use Rattle.dia_wire.specs.declared.said.Said.{Said};

    ghost Value = { Said };

    ghost view = { λ p. record { session = p.session.now; body = Vectors p.rand.now p.xres.now p.autn.now p.key.now } };
}

/// Octets in memory of their own.
fn own(alloc: Global, octets: &[u8]) -> Result<Octets, OutOfMemory>
    ensures { IfOk result (λ own. own ≡ octets.now) }
{
    Ok(Octets::from(Vec::from_slice(alloc, octets)?))
}

/// Vectors in memory of their own.
pub fn vectors(
    alloc: Global,
    rand: &[u8],
    xres: &[u8],
    autn: &[u8],
    key: &[u8],
) -> Result<DiaBody, OutOfMemory>
    ensures body { IfOk result (λ body. body ≡ Vectors rand.now xres.now autn.now key.now) }
    ensures written { IsVector rand.now xres.now autn.now key.now → IfOk result IsBody }
{
    Ok(DiaBody::Vectors {
        rand: own(alloc, rand)?,
        xres: own(alloc, xres)?,
        autn: own(alloc, autn)?,
        key: own(alloc, key)?,
    })
}

impl<'a> PlainParts<'a> {
    /// The same with memory of its own.
    pub fn own(self, alloc: Global) -> Result<Said, OutOfMemory>
        ensures { IfOk result (λ said. said ≡ self.entry) }
    {
        let PlainParts { session, body } = self;
        let session = own(alloc, session)?;
        Ok(Said { session, body })
    }
}

impl<'a> VectorsParts<'a> {
    /// The same with memory of its own.
    pub fn own(self, alloc: Global) -> Result<Said, OutOfMemory>
        ensures { IfOk result (λ said. said ≡ self.entry) }
    {
        let session = own(alloc, self.session)?;
        let body = vectors(alloc, self.rand, self.xres, self.autn, self.key)?;
        Ok(Said { session, body })
    }
}
