//! Causes.

ghost use Rattle.std.specs.Prelude.{◌≡◌, ◌≤◌, ◌<◌, IfOk, OnOk, OnErr};
ghost use Rattle.device_types.specs.Cause.{cause_roots};

use aper_fields::{
    BitReader, BitWriter, EnumValue, read_choice, read_enum, write_choice, write_enum,
};
use aper_types::{Coding, Named};
use echo_base::{OutOfMemory, Refusal};

/// Why something was done (TS 36.413, 9.2.1.3).
#[derive(Clone, Copy, Debug)]
pub struct Cause {
    /// The group: 0 radio network, 1 transport, 2 NAS, 3 protocol, 4 miscellaneous.
    pub group: u8,
    /// Does the cause stand behind the extension mark of its group?
    pub extended: bool,
    /// Its index among the roots, or among those behind the extension mark, and then below 64.
    pub index: u8,
}

/// How many roots the causes of a group have, those in front of its extension mark (TS 36.413, 9.2.1.3): the groups are numbered as in
/// `Cause`, and each above 4 is answered as the last.
#[tactic(auto, unfolding(device_types::specs::Cause::cause_roots))]
pub fn cause_roots(group: u64) -> u32
    ensures roots { result ≡ cause_roots group }
    ensures some { 1 ≤ result }
    ensures few { result ≤ 64 }
{
    match group {
        0 => 36,
        1 => 2,
        2 => 4,
        3 => 7,
        _ => 6,
    }
}

/// The CHOICE of a group, and the cause of the group.
pub struct Grouped;

impl Coding for Grouped {
    ghost use Rattle.s1ap_ies.specs.Values.{grouped};

    type Value = (u64, EnumValue);

    ghost right = { Unit {0} };

    ghost asn1 = { grouped };

    /// It is refused for the first piece that is wrong: Truncated, BadChoice where the extension bit of the choice is 1 or there is
    /// no such group, OutOfRange where the group has no such cause.
    #[tactic(auto, unfolding(aper_fields::specs::Asn1::reading))]
    fn read(r: &mut BitReader) -> Result<(u64, EnumValue), Refusal> {
        let mut ahead = r.ahead();
        let group = read_choice(&mut ahead, 5, 3)?;
        let cause = read_enum(&mut ahead, cause_roots(group), true)?;
        *r = ahead;
        Ok((group, cause))
    }

    #[tactic(auto, unfolding(aper_fields::specs::Asn1::run))]
    fn write(w: &mut BitWriter, (group, cause): (u64, EnumValue)) -> Result<(), OutOfMemory> {
        write_choice(w, 3, group)?;
        write_enum(w, cause_roots(group), true, cause)
    }
}

impl Named for Cause {
    ghost use Rattle.s1ap_ies.specs.Values.{cause, cause_same};
    ghost use Rattle.aper_types.specs.Made.{made_of};

    type Type = Grouped;

    ghost asn1 = { cause };

    ghost same = { cause_same };

    fn make((group, cause): (u64, EnumValue)) -> Cause {
        Cause {
            group: group as u8,
            extended: cause.extended,
            index: cause.index,
        }
    }

    fn parts(self) -> (u64, EnumValue) {
        let cause = EnumValue {
            extended: self.extended,
            index: self.index,
        };
        (u64::from(self.group), cause)
    }

    ghost made = { made_of _ cause_same };

    ghost right = { tt };
}
