//! Values of IEs, made of the octets that they are.

ghost use Rattle.std.specs.Prelude.{◌≡◌, ◌≢◌, ◌%◌, ◌<◌, ◌∷◌, [], false, IfNone, IfSome};
ghost use Rattle.s1ap_ies.specs.declared.cause.Cause.{Cause};
ghost use Rattle.s1ap_ies.specs.Run.{IsTai, IsCgi, IsStmsi, IsSecCaps, IsCause};
ghost use Rattle.aper_octets.specs.Octets.{four_octets};
ghost use Rattle.aper_octets.specs.Values.{tai_octets, cgi_octets, stmsi_octets, caps_octets, cause_octets};

use s1ap_ies::{Cause, Cgi, SecCaps, Stmsi, Tai};

/// Four octets as a number.
#[inline(always)]
#[tactic(auto, using(crate::proofs::Made::four_read))]
pub fn four(a: u8, b: u8, c: u8, d: u8) -> u32
    ensures { four_octets result ≡ a ∷ b ∷ c ∷ d ∷ [] }
{
    u32::from(a) * 16777216 + u32::from(b) * 65536 + u32::from(c) * 256 + u32::from(d)
}

/// A number as four octets.
#[inline(always)]
#[tactic(auto, unfolding(crate::specs::Octets::four_octets))]
pub fn octets_of(n: u32) -> [u8; 4]
    ensures { result ≡ four_octets n }
{
    [
        (n / 16777216) as u8,
        (n / 65536 % 256) as u8,
        (n / 256 % 256) as u8,
        (n % 256) as u8,
    ]
}

/// The TAI that five octets behind an octet of zeros are.
#[tactic(auto, using(crate::proofs::Made::tai_read))]
pub fn tai_of(a: u8, b: u8, c: u8, d: u8, e: u8) -> Tai
    ensures octets { tai_octets result ≡ 0 ∷ a ∷ b ∷ c ∷ d ∷ e ∷ [] }
    ensures right { IsTai result }
{
    Tai {
        plmn: u32::from(a) * 65536 + u32::from(b) * 256 + u32::from(c),
        tac: u16::from(d) * 256 + u16::from(e),
    }
}

/// The CGI that seven octets behind an octet of zeros are.
#[tactic(auto, using(crate::proofs::Made::cgi_read))]
pub fn cgi_of(a: u8, b: u8, c: u8, d: u8, e: u8, f: u8, g: u8) -> Cgi
    requires { g % 16 ≡ 0 }
    ensures octets { cgi_octets result ≡ 0 ∷ a ∷ b ∷ c ∷ d ∷ e ∷ f ∷ g ∷ [] }
    ensures right { IsCgi result }
{
    Cgi {
        plmn: u32::from(a) * 65536 + u32::from(b) * 256 + u32::from(c),
        cell: u32::from(d) * 1048576 + u32::from(e) * 4096 + u32::from(f) * 16 + u32::from(g / 16),
    }
}

/// The S-TMSI with an MME code that stands two bits behind the start of two octets.
#[inline(always)]
#[tactic(auto, unfolding(crate::specs::Values::stmsi_octets))]
pub fn stmsi_of(h: u8, m: u8, tmsi: u32) -> Stmsi
    requires high { h < 64 }
    requires low { m % 64 ≡ 0 }
    ensures octets { stmsi_octets result ≡ h ∷ m ∷ four_octets tmsi }
    ensures right { IsStmsi result }
{
    Stmsi {
        mmec: h * 4 + m / 64,
        tmsi,
    }
}

/// The security capabilities that five octets are.
#[inline(always)]
#[tactic(auto, using(crate::proofs::Made::caps_read))]
pub fn caps_of(a: u8, b: u8, c: u8, d: u8, e: u8) -> SecCaps
    requires first { a < 32 }
    requires third { c % 32 < 16 }
    requires last { e % 16 ≡ 0 }
    ensures octets { caps_octets result ≡ a ∷ b ∷ c ∷ d ∷ e ∷ [] }
    ensures right { IsSecCaps result }
{
    SecCaps {
        eea: u16::from(a) * 2048 + u16::from(b) * 8 + u16::from(c / 32),
        eia: u16::from(c % 16) * 4096 + u16::from(d) * 16 + u16::from(e / 16),
    }
}

/// The cause that one octet is, where it is a root of those of NAS.
#[inline(always)]
#[tactic(auto, unfolding(crate::specs::Values::cause_octets, device_types::specs::Cause::cause_roots))]
pub fn nas_cause(a: u8) -> Option<Cause>
    ensures octets { IfSome result (λ c. cause_octets c ≡ a ∷ []) }
    ensures right { IfSome result (λ c. IsCause c) }
    ensures root { IfSome result (λ c. (c.group ≡ 2) × (c.extended ≡ false)) }
    ensures none { IfNone result ((c : Cause) → IsCause c → c.group ≡ 2 → c.extended ≡ false → cause_octets c ≢ a ∷ []) }
{
    if a < 32 || a >= 40 || a % 2 != 0 {
        return None;
    }
    Some(Cause {
        group: 2,
        extended: false,
        index: a % 32 / 2,
    })
}

/// The cause that two octets are, where it is a root of those of the radio network.
#[inline(always)]
#[tactic(auto, unfolding(crate::specs::Values::cause_octets, device_types::specs::Cause::cause_roots))]
pub fn radio_cause(a: u8, b: u8) -> Option<Cause>
    ensures octets { IfSome result (λ c. cause_octets c ≡ a ∷ b ∷ []) }
    ensures right { IfSome result (λ c. IsCause c) }
    ensures root { IfSome result (λ c. (c.group ≡ 0) × (c.extended ≡ false)) }
    ensures none { IfNone result ((c : Cause) → IsCause c → c.group ≡ 0 → c.extended ≡ false → cause_octets c ≢ a ∷ b ∷ []) }
{
    if a >= 8 || b % 32 != 0 || a * 8 + b / 32 >= 36 {
        return None;
    }
    Some(Cause {
        group: 0,
        extended: false,
        index: a * 8 + b / 32,
    })
}
