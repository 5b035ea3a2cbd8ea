//! One step.
ghost use Rattle.std.specs.Prelude.{◌≡◌, Some, None, if◌then◌else◌, IfOk};
ghost use Rattle.bearer_proc.specs.Taking.{Takes};
ghost use Rattle.device_types.specs.Acts.{made};
ghost use Rattle.device_types.specs.Input.{IsInput};
ghost use Rattle.device_types.specs.Second.{second_at};
ghost use Rattle.device_types.specs.Session.{IsSession};
ghost use Rattle.device_types.specs.StepTable.{table_step, step_of};
ghost use Rattle.device_types.specs.declared.session.Second.TheVariants as seconds;

use attach_proc::attach_step_in_place;
use detach_proc::detach_step_in_place;
use device_types::{Effects, Input, Second, Session, Shared, Step, Subscriber, TryCopy};
use second_proc::{change_step, second_step_in_place};
use service_proc::service_step_in_place;
use std::alloc::AllocError;
use tau_proc::tau_step_in_place;

/// The step: that of a row of the second connection, or of the step table with what a second connection changes of it; where no row
/// fits, the session as before and no effects. A session in its ranges stays there, where the input is in its own.
#[tactic(auto, using(device_types::proofs::Keeping::keeps_ranges))]
pub fn step(row: &Subscriber, session: &Session, input: &Input) -> Result<Step, AllocError>
    ensures step { IfOk result (λ step. step ≡ step_of row.now session.now input.now) }
    ensures ranges { IsSession session.now → IsInput input.now → IfOk result (λ step. IsSession step.session) }
{
    let mut session = session.copy()?;
    let effects = step_in_place(row, &mut session, input)?;
    Step::new(session, effects)
}

/// The session takes the step of the one row that fits, or else none at all, and its effects are given. For want of memory the session
/// may have changed.
#[tactic(auto, unfolding(device_types::specs::StepTable::step_of))]
pub fn step_in_place(
    row: &Subscriber,
    session: &mut Session,
    input: &Input,
) -> Result<Effects, AllocError>
    ensures { IfOk result (λ effects. made session.new effects ≡ step_of row.now session.old input.now) }
{
    if let Some(effects) = second_step_in_place(row, session, input)? {
        return Ok(effects);
    }
    let before = with_second(session)?;
    let Some(effects) = table_step(row, session, input)? else {
        return Ok(Effects::new(session.alloc()));
    };
    match before {
        Some(before) => change_step(before.get(), session, input, effects),
        None => Ok(effects),
    }
}

/// The session, where it has a second connection.
fn with_second(session: &Session) -> Result<Option<Shared<Session>>, AllocError>
    ensures { IfOk result (λ copy. copy ≡ (if second_at seconds.None session.now then None else Some session.now)) }
{
    if session.is_second_at(Second::None) {
        return Ok(None);
    }
    Ok(Some(Shared::new(session.alloc(), session.copy()?)?))
}

/// The session takes the step of the one procedure that has a row for the input, if one has. For want of memory it may have changed.
#[tactic(auto, using(device_types::proofs::Joined::by_procedures))]
fn table_step(
    row: &Subscriber,
    session: &mut Session,
    input: &Input,
) -> Result<Option<Effects>, AllocError>
    ensures { IfOk result (Takes session.old session.new (table_step row.now session.old input.now)) }
{
    if let Some(effects) = attach_step_in_place(row, session, input)? {
        return Ok(Some(effects));
    }
    if let Some(effects) = service_step_in_place(session, input)? {
        return Ok(Some(effects));
    }
    if let Some(effects) = tau_step_in_place(row, session, input)? {
        return Ok(Some(effects));
    }
    detach_step_in_place(session, input)
}
