//! Writing a session.
ghost use Rattle.std.specs.Prelude.{◌≡◌, ◌≤◌, ◌+◌, IfOk, length};
ghost use Rattle.session_form.specs.Fields.{fields_of, parts_of, written_onto};
ghost use Rattle.session_form.specs.Form.{front, tunnel, service, second_rows, form_field, form_of, IsInRange};
ghost use Rattle.session_form.specs.declared.version.Version.TheVariants.{Two};

use crate::writer::{FormWriter, MOST_OCTETS};
use device_types::{Octets, Session};
use echo_base::OutOfMemory;
use std::alloc::Global;

/// Where the device is, and what it can do.
#[inline(always)]
#[tactic(auto, unfolding(crate::specs::Fields::written_onto))]
fn put_front(w: &mut FormWriter, s: &Session)
    requires { length w.old + 16 ≤ MOST_OCTETS }
    ensures octets { w.new ≡ written_onto (fields_of (front Two)) (parts_of (front Two) s.now) w.old }
    ensures count { length w.new ≡ length w.old + 16 }
{
    w.stage(s.stage);
    w.link(s.link);
    w.number(3, s.plmn as u64);
    w.number(2, s.tac as u64);
    w.number(1, s.eea as u64);
    w.number(1, s.eia as u64);
    w.number(1, s.pti as u64);
}

/// Its bit rates, and the ends of its tunnel.
#[inline(always)]
#[tactic(auto, unfolding(crate::specs::Fields::written_onto))]
fn put_tunnel(w: &mut FormWriter, s: &Session)
    requires { length w.old + 36 ≤ MOST_OCTETS }
    ensures octets { w.new ≡ written_onto (fields_of tunnel) (parts_of tunnel s.now) w.old }
    ensures count { length w.new ≡ length w.old + 36 }
{
    w.number(8, s.dl);
    w.number(8, s.ul);
    w.number(4, s.sgw as u64);
    w.number(4, s.teid as u64);
    w.number(4, s.ip as u64);
    w.number(4, s.side_addr as u64);
    w.number(4, s.side_teid as u64);
}

/// How it is served.
#[inline(always)]
#[tactic(auto, unfolding(crate::specs::Fields::written_onto))]
fn put_service(w: &mut FormWriter, s: &Session)
    requires { length w.old + 10 ≤ MOST_OCTETS }
    ensures octets { w.new ≡ written_onto (fields_of service) (parts_of service s.now) w.old }
    ensures count { length w.new ≡ length w.old + 10 }
{
    w.bearer(s.bearer);
    w.truth(s.registered);
    w.truth(s.off);
    w.number(1, s.cause.group as u64);
    w.truth(s.cause.extended);
    w.number(1, s.cause.index as u64);
    w.number(4, s.radio as u64);
}

/// Its second connection.
#[inline(always)]
#[tactic(auto, unfolding(crate::specs::Fields::written_onto))]
fn put_second(w: &mut FormWriter, s: &Session)
    requires { length w.old + 22 ≤ MOST_OCTETS }
    ensures octets { w.new ≡ written_onto (fields_of (second_rows Two)) (parts_of (second_rows Two) s.now) w.old }
{
    w.second(s.second);
    w.number(1, s.pti2 as u64);
    w.number(4, s.sgw2 as u64);
    w.number(4, s.teid2 as u64);
    w.number(4, s.ip2 as u64);
    w.number(4, s.side2_addr as u64);
    w.number(4, s.side2_teid as u64);
}

/// Puts all fields in their order.
#[inline(always)]
#[tactic(auto, unfolding(crate::specs::Fields::written_onto))]
fn put_fields(w: &mut FormWriter, s: &Session)
    requires empty { length w.old ≡ 0 }
    requires range { IsInRange s.now }
    ensures { w.new ≡ written_onto form_field (Two, s.now) w.old }
{
    w.number(1, 2);
    put_front(w, s);
    w.counted(s.res.octets());
    w.put(s.key.octets());
    put_tunnel(w, s);
    put_service(w, s);
    put_second(w, s);
}

/// The octets of a session, in form 2. It fails for want of memory alone.
#[tactic(auto, unfolding(crate::specs::Form::form_of), using(crate::proofs::Spelled::onto_is))]
pub fn write_session(alloc: Global, session: &Session) -> Result<Octets, OutOfMemory>
    requires { IsInRange session.now }
    ensures { IfOk result (λ octets. octets ≡ form_of session.now) }
{
    let mut w = FormWriter::new();
    put_fields(&mut w, session);
    Ok(Octets::from(Vec::from_slice(alloc, w.octets())?))
}
