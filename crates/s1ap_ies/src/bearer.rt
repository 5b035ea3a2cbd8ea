//! The pieces of E-RAB items.

ghost use Rattle.std.specs.Prelude.{◌≡◌, ◌<◌, ◌≤◌, ◌^◌, IfOk, OnOk, OnErr};
ghost use Rattle.echo_base.specs.Reading.{GivesBy};
ghost use Rattle.aper_fields.specs.Run.{then_written};
ghost use Rattle.aper_fields.specs.Kept.{Keeps};
ghost use Rattle.aper_fields.specs.Asn1.{fields_at, fields_run};
ghost use Rattle.aper_types.specs.Types.{CanBe};
ghost use Rattle.s1ap_ies.specs.Values.{address, bearer};
ghost use Rattle.s1ap_ies.specs.Lent.{bearer_parts};

use aper_fields::{BitReader, BitWriter, Ranged, read_bits_fixed, read_zero_bit, write_bits_fixed};
use aper_types::{
    Absent, BitString, Coding, Components, Extensible, Integer, Made, Named, Needed, Sequence,
};
use echo_base::{OutOfMemory, Reason, Refusal};

/// E-RAB ID (TS 36.413, 9.2.1.2).
pub type ErabId = Extensible<Integer<0, 15>>;

/// Allocation and retention priority (TS 36.413, 9.2.1.60).
type Priority = Sequence<Needed<BitString<6>>>;

/// A transport layer address (TS 36.413, 9.2.2.1), which has to be an IPv4 address.
pub struct Address;

impl Coding for Address {
    type Value = u64;

    ghost right = { Unit {0} };

    ghost asn1 = { address };

    /// It is refused as OutOfRange where its extension bit is 1 or it has not 32 bits.
    #[tactic(auto, unfolding(aper_fields::specs::Asn1::reading))]
    fn read(r: &mut BitReader) -> Result<u64, Refusal> {
        let mut ahead = r.ahead();
        read_zero_bit(&mut ahead, Reason::OutOfRange)?;
        let place = ahead.ahead();
        if Ranged::<1, 160>::read(&mut ahead)? != 32 {
            return Err(place.refusal(Reason::OutOfRange));
        }
        let address = read_bits_fixed(&mut ahead, 32)?;
        *r = ahead;
        Ok(address)
    }

    #[tactic(auto, unfolding(aper_fields::specs::Asn1::run))]
    fn write(w: &mut BitWriter, number: u64) -> Result<(), OutOfMemory> {
        write_bits_fixed(w, 0, 1)?;
        Ranged::<1, 160>::write(w, 32)?;
        write_bits_fixed(w, number, 32)
    }
}

/// The QoS of an E-RAB (TS 36.413, 9.2.1.15).
#[derive(Clone, Copy)]
pub struct Qos {
    /// QoS class identifier.
    pub qci: u8,
    /// Allocation and retention priority: four bits of priority, the highest, one of capability, one of vulnerability.
    pub arp: u8,
}

impl Named for Qos {
    ghost use Rattle.s1ap_ies.specs.Values.{qos, qos_same};
    ghost use Rattle.aper_types.specs.Made.{made_of};
    ghost use Rattle.std.proofs.Common.{rules};

    type Type = Sequence<(Needed<Integer<0, 255>>, (Needed<Priority>, Absent))>;

    ghost asn1 = { qos };

    ghost same = { qos_same };

    fn make((qci, (arp, ())): (u64, (u64, ()))) -> Qos {
        Qos {
            qci: qci as u8,
            arp: arp as u8,
        }
    }

    fn parts(self) -> (u64, (u64, ())) {
        (u64::from(self.qci), (u64::from(self.arp), ()))
    }

    ghost made = { made_of _ qos_same };

    ghost right = { Prim.search rules };
}

/// What stands in front of the NAS-PDU in the items of requests (TS 36.413, 9.1.3.1 and 9.1.4.1): E-RAB ID, QoS, transport layer
/// address, TEID.
type Fields = (
    Needed<ErabId>,
    (Needed<Made<Qos>>, (Needed<Address>, Needed<BitString<32>>)),
);

/// An E-RAB that is to be set up, without its NAS-PDU.
#[derive(Clone, Copy)]
pub struct Bearer {
    /// The E-RAB ID.
    pub id: u8,
    /// The QoS.
    pub qos: Qos,
    /// The IPv4 address of the serving gateway.
    pub address: u32,
    /// The tunnel endpoint identifier of the serving gateway.
    pub teid: u32,
}

impl Bearer {
    /// Reads what stands in front of the NAS-PDU.
    pub fn read(r: &mut BitReader) -> Result<Bearer, Refusal>
        ensures { GivesBy bearer_parts result r.old r.new (fields_at bearer (tt, (tt, (tt, tt))) r.old) }
    {
        let (id, (qos, (address, teid))) = Fields::read_fields(r, ((), ((), ((), ()))))?;
        Ok(Bearer {
            id: id as u8,
            qos,
            address: address as u32,
            teid: teid as u32,
        })
    }

    /// Writes what stands in front of the NAS-PDU. Where memory runs out, what was written before still stands in front.
    pub fn write(self, w: &mut BitWriter) -> Result<(), OutOfMemory>
        requires { CanBe bearer (bearer_parts self) }
        ensures ok { OnOk result (w.new ≡ then_written w.old (fields_run bearer (bearer_parts self))) }
        ensures kept { OnErr result (Keeps w.old w.new) }
    {
        Fields::write_fields(w, self.parts())
    }

    /// The values of these fields.
    fn parts(self) -> (u64, (Qos, (u64, u64)))
        ensures { result ≡ bearer_parts self }
    {
        let endpoint = (u64::from(self.address), u64::from(self.teid));
        (u64::from(self.id), (self.qos, endpoint))
    }
}
