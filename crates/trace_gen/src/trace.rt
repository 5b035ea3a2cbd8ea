//! What is sent.

ghost use Rattle.std.specs.Prelude.{◌≡◌, ◌*◌, ◌+◌, ◌-◌, ◌≤◌, ◌<◌, ◌++◌, OnOk, IfOk, nat_lt, if◌then◌else◌, [], ◌∷◌};
ghost use Rattle.std.specs.List.{flat_map};
ghost use Rattle.trace_gen.specs.Draws.{next_state, state_after, value};
ghost use Rattle.trace_gen.specs.Scripts.{scripts_of};
ghost use Rattle.trace_gen.specs.Trace.{device_at, sent_in, made_trace};

use crate::draws::Draws;
use crate::script::{Script, Sent, scripts_of, sendings_of};
use echo_base::OutOfMemory;
use std::alloc::Global;

/// The device of a visit, counted from 0: each round goes over the devices in order.
fn device_at(devices: u32, visit: u32) -> u32
    requires some { 1 ≤ devices }
    ensures { result ≡ device_at devices visit }
{
    visit % devices + 1
}

/// The scripts of a visit: the attach, or those of a draw.
fn scripts_at(draws: &mut Draws, is_first: bool) -> &'static [Script]
    ensures scripts { result.now ≡ (if is_first then Script.Attach ∷ [] else scripts_of (value 3 (next_state draws.old.state))) }
    ensures state { draws.new.state ≡ (if is_first then draws.old.state else next_state draws.old.state) }
{
    if is_first {
        return &[Script::Attach];
    }
    scripts_of(draws.draw(3))
}

/// Puts what a device sends in a script behind what was sent.
fn put_script(sent: &mut Vec<Sent>, device: u32, script: Script) -> Result<(), OutOfMemory>
    ensures { OnOk result (sent.new.items ≡ sent.old.items ++ sent_in device script) }
{
    for sending in sendings_of(script) {
        let sending = *sending;
        sent.push(Sent { device, sending })?;
    }
    Ok(())
}

/// Puts what a device sends in scripts behind what was sent.
fn put_scripts(sent: &mut Vec<Sent>, device: u32, scripts: &[Script]) -> Result<(), OutOfMemory>
    ensures { OnOk result (sent.new.items ≡ sent.old.items ++ flat_map (sent_in device) scripts.now) }
{
    for script in scripts {
        put_script(sent, device, *script)?;
    }
    Ok(())
}

/// What is sent, in order: in the first round each device attaches, and in each later one it does the scripts of a draw.
#[tactic(auto, using(crate::proofs::Ranges::from_zero, crate::proofs::Ranges::draws_made, crate::proofs::Ranges::later_visits, crate::proofs::Ranges::few_rounds), unfolding(crate::specs::Trace::sent_at, crate::specs::Trace::made_trace))]
pub fn made_trace(
    alloc: Global,
    draws: &mut Draws,
    devices: u32,
    rounds: u32,
) -> Result<Vec<Sent>, OutOfMemory>
    requires some { 1 ≤ devices }
    requires few { devices * (rounds + 1) ≤ 800 }
    ensures trace { IfOk result (λ sent. sent.items ≡ made_trace draws.old.state devices rounds) }
    ensures state { OnOk result (draws.new.state ≡ state_after draws.old.state (devices * rounds)) }
{
    let mut sent = Vec::new(alloc);
    for visit in 0..devices * (rounds + 1) {
        let scripts = scripts_at(draws, visit < devices);
        put_scripts(&mut sent, device_at(devices, visit), scripts)?;
    }
    Ok(sent)
}
