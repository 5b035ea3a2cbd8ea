//! What the events of a schedule come to.

ghost use Rattle.std.specs.Prelude.{◌≡◌, ◌+◌, [], ◌∷◌, ◌++◌, map, All, IfOk, OnOk, OnErr, string_bytes};
ghost use Rattle.device_types.specs.declared.event.EventAnswer.{EventAnswer};
ghost use Rattle.link_schedule.specs.Floor.{events_of, IsEventOn};
ghost use Rattle.report_text.specs.Transcript.{transcript_line};
ghost use Rattle.echo_run.specs.Replay.{lines_from};

use device_types::Event;
use echo_base::OutOfMemory;
use link_schedule::Floor;
use report_text::put_transcript_line;
use std::alloc::Global;

/// The floor is given an event of that number, and the line of its answer goes behind the text.
fn put_event<F: Floor>(
    text: &mut String,
    floor: &mut F,
    number: u64,
    event: Event,
) -> Result<(), OutOfMemory>
    requires { IsEventOn (F.setting floor.old) event }
    ensures exact { F.exact floor.new ≡ F.exact floor.old }
    ensures setting { F.setting floor.new ≡ F.setting floor.old }
    ensures given { OnOk result ((answer : EventAnswer)
        × (F.given floor.new ≡ F.given floor.old ++ (event, answer) ∷ [])
        × (string_bytes text.new ≡ string_bytes text.old ++ transcript_line number answer)) }
{
    let answer = floor.apply(event)?;
    put_transcript_line(text, number, &answer)
}

/// The transcript of a schedule: a line for each event, with the answer that the floor gives.
pub(crate) fn transcript<F: Floor>(
    alloc: Global,
    floor: &mut F,
    schedule: &[Event],
) -> Result<String, OutOfMemory>
    requires fresh { F.given floor.old ≡ [] }
    requires events { All (IsEventOn (F.setting floor.old)) schedule.now }
    ensures exact { F.exact floor.new ≡ F.exact floor.old }
    ensures setting { F.setting floor.new ≡ F.setting floor.old }
    ensures given { OnOk result (events_of (F.given floor.new) ≡ schedule.now) }
    ensures text { IfOk result (λ text. string_bytes text ≡ lines_from 1 (map (λ turn. turn.1) (F.given floor.new))) }
{
    let mut text = String::new(alloc);
    for (index, event) in schedule.iter().enumerate() {
        put_event(&mut text, floor, index as u64 + 1, *event)?;
    }
    Ok(text)
}
