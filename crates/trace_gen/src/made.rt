//! Made cases.

ghost use Rattle.std.specs.Prelude.{◌≡◌, ◌++◌, ◌+◌, ◌*◌, ◌^◌, ◌<◌, ◌≤◌, All, IfOk, OnOk, string_bytes};
ghost use Rattle.trace_gen.specs.Made.{trace_text, made_case};

use crate::draws::Draws;
use crate::message::put_trace_line;
use crate::schedule::put_schedule;
use crate::script::Sent;
use crate::subscribers::put_subscribers;
use crate::trace::made_trace;
use device_types::Octets;
use echo_base::OutOfMemory;
use std::alloc::Global;

/// Puts the section of what is sent behind a text.
fn put_trace(alloc: Global, text: &mut String, trace: &[Sent]) -> Result<(), OutOfMemory>
    requires devices { All (λ sent. sent.device < 2 ^ 24) trace.now }
    ensures { OnOk result (string_bytes text.new ≡ string_bytes text.old ++ trace_text trace.now) }
{
    writeln!(text, "[trace]")?;
    for sent in trace {
        put_trace_line(alloc, text, *sent)?;
    }
    Ok(())
}

/// The case text of a number: so many devices attach, and in each of so many rounds each does what is drawn for it.
#[tactic(auto, unfolding(crate::specs::Made::made_case))]
pub fn make_case(
    alloc: Global,
    number: u32,
    devices: u32,
    rounds: u32,
) -> Result<Octets, OutOfMemory>
    requires some { 1 ≤ devices }
    requires few { devices * (rounds + 1) ≤ 800 }
    ensures { IfOk result (λ text. text ≡ made_case number devices rounds) }
{
    let mut text = String::new(alloc);
    put_subscribers(alloc, &mut text, devices)?;
    let mut draws = Draws {
        state: u64::from(number),
    };
    let trace = made_trace(alloc, &mut draws, devices, rounds)?;
    put_trace(alloc, &mut text, &trace)?;
    put_schedule(alloc, &mut text, &mut draws, devices, &trace)?;
    Ok(Octets::from(text.into_bytes()))
}
