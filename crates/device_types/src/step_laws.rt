//! Laws of the step table, as clauses of functions that do nothing.
ghost use Rattle.std.specs.Prelude.{◌≡◌, ◌↔◌, ◌≤◌, ◌<◌, ℕ, true, false, [], length, filter, All};
ghost use Rattle.device_types.specs.declared.input.Input.TheVariants as inputs;
ghost use Rattle.device_types.specs.Acts.{made};
ghost use Rattle.device_types.specs.Answer.{IsAnswer};
ghost use Rattle.device_types.specs.Awaited.{awaited_by};
ghost use Rattle.device_types.specs.Cause.{IsCauseCode};
ghost use Rattle.device_types.specs.Effect.{IsWritable, IsSent, IsConnected};
ghost use Rattle.device_types.specs.Input.{IsInput};
ghost use Rattle.device_types.specs.Journal.{is_awaited};
ghost use Rattle.device_types.specs.PeerAnswer.{answer_of};
ghost use Rattle.device_types.specs.Rule.{forbidden, settled};
ghost use Rattle.device_types.specs.Second.{second_rules, changed, MayBeOf};
ghost use Rattle.device_types.specs.Session.{IsSession};
ghost use Rattle.device_types.specs.StepLaws.{comes, IsElsewhere, IsListed};
ghost use Rattle.device_types.specs.StepTable.{fit_count, step_of, step_table, Follows};
ghost use Rattle.device_types.specs.Subscriber.{IsSubscriber};

use crate::effect::Effects;
use crate::input::Input;
use crate::message::Message;
use crate::session::Session;
use crate::step::Step;
use crate::subscriber::Subscriber;

/// No two rows fit, of the step table and of a second connection.
#[tactic(auto, using(crate::proofs::Apart::apart))]
pub fn one_row_fits(_row: &Subscriber, _session: &Session, _input: &Input)
    ensures { fit_count _row.now _session.now _input.now ≤ 1 }
{}

/// The step is that of whatever row fits: of one of a second connection as it is, and of one of the step table with its changes; where
/// none fits, the session is as before, and nothing is made.
#[tactic(auto, using(crate::proofs::Members::step_of_second, crate::proofs::Members::step_of_row, crate::proofs::Members::step_of_none))]
pub fn step_of_row(_row: &Subscriber, _session: &Session, _input: &Input, _step: &Step)
    ensures second { Follows (second_rules _row.now _session.now _input.now) _session.now _step.now
        → step_of _row.now _session.now _input.now ≡ _step.now }
    ensures fits { Follows (step_table _row.now _session.now _input.now) _session.now _step.now
        → step_of _row.now _session.now _input.now ≡ changed _session.now _input.now _step.now }
    ensures none { fit_count _row.now _session.now _input.now ≡ 0
        → step_of _row.now _session.now _input.now ≡ made _session.now [] }
{}

/// A message that did not come on the session's S1 connection fits no row, but for those with which a device comes: an attach, a
/// service request, and a tracking area update or a detach that is the first message of its connection; and but for a notice.
pub fn elsewhere_fits_no_row(_row: &Subscriber, _session: &Session, _message: &Message)
    requires elsewhere { IsElsewhere _session.now _message.now }
    requires later { comes _message.now.body ≡ false }
    ensures { fit_count _row.now _session.now (inputs.Message _message.now) ≡ 0 }
{}

/// An area is forbidden exactly where it is in the subscriber's list.
pub fn listed_areas_are_forbidden(_row: &Subscriber)
    ensures { (area : ℕ) → (forbidden _row.now area ≡ true) ↔ IsListed area _row.now.forbidden }
{}

/// A session is settled exactly where it awaits no answer; so is the next one where the step makes no call whose answer is awaited.
#[tactic(auto, using(crate::proofs::Tests::settled_awaits_none, crate::proofs::Tests::settled_by_step))]
pub fn settled_awaits_nothing(_row: &Subscriber, _session: &Session, _input: &Input)
    ensures stage { (settled _session.now ≡ true) ↔ (awaited_by _session.now ≡ []) }
    ensures step { 1 ≤ fit_count _row.now _session.now _input.now
        → (settled (step_of _row.now _session.now _input.now).session ≡ true)
        ↔ (filter is_awaited (step_of _row.now _session.now _input.now).effects ≡ []) }
{}

/// The session stays in its ranges.
#[tactic(auto, using(crate::proofs::Keeping::keeps_ranges))]
pub fn step_keeps_ranges(_row: &Subscriber, _session: &Session, _input: &Input)
    requires session { IsSession _session.now }
    requires input { IsInput _input.now }
    ensures { IsSession (step_of _row.now _session.now _input.now).session }
{}

/// Where the session's cause can be written, that of the next one can be too; where a session with a second connection is that of a
/// row with a name and an address for it, so is the next one; and then each effect is a call or can be written.
#[tactic(auto, using(crate::proofs::Keeping::keeps_cause, crate::proofs::Entitled::keeps_both, crate::proofs::Keeping::writes_effects))]
pub fn step_can_be_written(_row: &Subscriber, _session: &Session, _input: &Input)
    requires session { IsSession _session.now }
    requires cause { IsCauseCode _session.now.cause }
    requires second { MayBeOf _row.now _session.now }
    requires input { IsInput _input.now }
    ensures cause { IsCauseCode (step_of _row.now _session.now _input.now).session.cause }
    ensures second { MayBeOf _row.now (step_of _row.now _session.now _input.now).session }
    ensures effects { All (IsWritable _row.now) (step_of _row.now _session.now _input.now).effects }
{}

/// A device that is neither detached nor idle keeps an S1 connection, and each message to it but a paging goes to a base station.
#[tactic(auto, using(crate::proofs::Connecting::keeps_connection, crate::proofs::Connecting::sends_to_stations))]
pub fn step_keeps_connection(_row: &Subscriber, _session: &Session, _input: &Input)
    requires session { IsSession _session.now }
    requires connected { IsConnected _session.now }
    requires input { IsInput _input.now }
    ensures connected { IsConnected (step_of _row.now _session.now _input.now).session }
    ensures sent { All IsSent (step_of _row.now _session.now _input.now).effects }
{}

/// A step awaits the answer to one call at most: where a row fits, to that of the stage which it enters.
#[tactic(auto, using(crate::proofs::Calls::one_call, crate::proofs::Calls::awaits_as_stage))]
pub fn step_awaits_one(_row: &Subscriber, _session: &Session, _input: &Input)
    ensures one { length (filter is_awaited (step_of _row.now _session.now _input.now).effects) ≤ 1 }
    ensures stage { 1 ≤ fit_count _row.now _session.now _input.now
        → filter is_awaited (step_of _row.now _session.now _input.now).effects
        ≡ awaited_by (step_of _row.now _session.now _input.now).session }
{}

/// A step makes four effects at most.
#[tactic(auto, using(crate::proofs::Few::effects_few))]
pub fn step_makes_few(_row: &Subscriber, _session: &Session, _input: &Input)
    ensures { length (step_of _row.now _session.now _input.now).effects ≤ 4 }
{}

/// What a peer answers is in its ranges.
#[tactic(auto, using(crate::proofs::Peers::peer_ranged))]
pub fn answers_in_range(_row: &Subscriber, _calls: &Effects)
    requires row { IsSubscriber _row.now }
    requires count { length _calls.now < 268435456 }
    ensures { IsAnswer (answer_of _row.now _calls.now) }
{}
