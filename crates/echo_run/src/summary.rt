//! What the events of a schedule come to, in numbers.

ghost use Rattle.std.specs.Prelude.{◌≡◌, ◌+◌, ◌^◌, ◌<◌, [], map, All, IfOk, OnOk};
ghost use Rattle.link_schedule.specs.Floor.{events_of, IsEventOn};
ghost use Rattle.echo_run.specs.Summary.{is_committed, is_stale, scheduled_of, with_answer};

use device_types::{Event, EventAnswer};
use echo_base::OutOfMemory;
use link_schedule::Floor;
use report_text::Scheduled;

/// Was a step written?
fn is_committed(answer: EventAnswer) -> bool
    ensures { result ≡ is_committed answer }
{
    matches!(answer, EventAnswer::Committed(_))
}

/// Was a step not written, since its read was stale?
fn is_stale(answer: EventAnswer) -> bool
    ensures { result ≡ is_stale answer }
{
    matches!(answer, EventAnswer::Stale { .. })
}

/// The counts with one answer more.
fn with_answer(counts: Scheduled, answer: EventAnswer) -> Scheduled
    requires events { counts.events + 1 < 2 ^ 64 }
    requires committed { counts.committed + 1 < 2 ^ 64 }
    requires stale { counts.stale + 1 < 2 ^ 64 }
    ensures { result ≡ with_answer counts answer }
{
    Scheduled {
        events: counts.events + 1,
        committed: counts.committed + u64::from(is_committed(answer)),
        stale: counts.stale + u64::from(is_stale(answer)),
    }
}

/// The floor is given the events of a schedule, and its answers are counted.
pub(crate) fn scheduled<F: Floor>(
    floor: &mut F,
    schedule: &[Event],
) -> Result<Scheduled, OutOfMemory>
    requires fresh { F.given floor.old ≡ [] }
    requires events { All (IsEventOn (F.setting floor.old)) schedule.now }
    ensures exact { F.exact floor.new ≡ F.exact floor.old }
    ensures setting { F.setting floor.new ≡ F.setting floor.old }
    ensures given { OnOk result (events_of (F.given floor.new) ≡ schedule.now) }
    ensures counts { IfOk result (λ counts. counts ≡ scheduled_of (map (λ turn. turn.1) (F.given floor.new))) }
{
    let mut counts = Scheduled {
        events: 0,
        committed: 0,
        stale: 0,
    };
    for event in schedule {
        let answer = floor.apply(*event)?;
        counts = with_answer(counts, answer);
    }
    Ok(counts)
}
