//! Laws of the machine alone, as clauses of functions that do nothing.
ghost use Rattle.std.specs.Prelude.{◌≡◌, ◌≤◌, ◌<◌, ◌+◌, ◌*◌, ℕ, length, take, slice_get, All, Some, None};
ghost use Rattle.device_types.specs.declared.step.Entry.{Entry};
ghost use Rattle.device_types.specs.Alone.{alone_of, messages_of, IsAlone};
ghost use Rattle.device_types.specs.Cause.{IsCauseCode};
ghost use Rattle.device_types.specs.Effect.{IsWritable, IsSent, IsConnected};
ghost use Rattle.device_types.specs.Input.{IsInput};
ghost use Rattle.device_types.specs.Journal.{awaited_call, taken_count};
ghost use Rattle.device_types.specs.Line.{IsNumbered};
ghost use Rattle.device_types.specs.Message.{IsMessage};
ghost use Rattle.device_types.specs.Ready.{IsReady};
ghost use Rattle.device_types.specs.Second.{MayBeOf};
ghost use Rattle.device_types.specs.Session.{IsSession};
ghost use Rattle.device_types.specs.Subscriber.{IsSubscriber};

use crate::message::Message;
use crate::step::Entry;
use crate::subscriber::Subscriber;

/// Each entry is the one that comes next behind those before it, and behind the last none comes; it is the only such list.
#[tactic(auto, using(crate::proofs::Prefixes::is_alone, crate::proofs::Prefixes::only_alone))]
pub fn alone_is_the_only(_row: &Subscriber, _messages: &[Message], _journal: &[Entry])
    ensures is { IsAlone _row.now _messages.now (alone_of _row.now _messages.now) }
    ensures only { IsAlone _row.now _messages.now _journal.now → _journal.now ≡ alone_of _row.now _messages.now }
{}

/// Each message is taken once and in order; of three entries in a row one is of a message; and after the last entry no answer is
/// awaited.
#[tactic(auto, using(crate::proofs::Courses::all_taken, crate::proofs::Courses::three_entries, crate::proofs::Courses::few_entries, crate::proofs::Courses::nothing_awaited))]
pub fn alone_takes_each(_row: &Subscriber, _messages: &[Message])
    ensures messages { messages_of (alone_of _row.now _messages.now) ≡ _messages.now }
    ensures three { (v : ℕ) → v + 3 ≤ length (alone_of _row.now _messages.now)
        → taken_count (take v (alone_of _row.now _messages.now)) < taken_count (take (v + 3) (alone_of _row.now _messages.now)) }
    ensures count { length (alone_of _row.now _messages.now) ≤ 3 * length _messages.now }
    ensures end { awaited_call (alone_of _row.now _messages.now) ≡ None }
{}

/// Behind the entries before it, the row takes the input of each entry, however many replies it keeps.
#[tactic(auto, using(crate::proofs::Courses::entry_ready))]
pub fn alone_is_ready(_row: &Subscriber, _messages: &[Message])
    requires { IsNumbered _messages.now }
    ensures { (window v : ℕ) (entry : Entry) → slice_get (alone_of _row.now _messages.now) v ≡ Some entry
        → IsReady window (take v (alone_of _row.now _messages.now)) entry.input }
{}

/// Each session is in its ranges, with a cause that can be written, and has an S1 connection but where the device is detached or
/// idle; each input is in its ranges; and each effect is a call, or a message to the device that can be written and, but for a
/// paging, goes to a base station.
#[tactic(auto, using(crate::proofs::Courses::sound))]
pub fn alone_is_sound(_row: &Subscriber, _messages: &[Message])
    requires row { IsSubscriber _row.now }
    requires messages { All IsMessage _messages.now }
    requires count { length _messages.now ≤ 100000 }
    ensures session { (v : ℕ) (entry : Entry) → slice_get (alone_of _row.now _messages.now) v ≡ Some entry
        → IsSession entry.step.session }
    ensures cause { (v : ℕ) (entry : Entry) → slice_get (alone_of _row.now _messages.now) v ≡ Some entry
        → IsCauseCode entry.step.session.cause }
    ensures connected { (v : ℕ) (entry : Entry) → slice_get (alone_of _row.now _messages.now) v ≡ Some entry
        → IsConnected entry.step.session }
    ensures input { (v : ℕ) (entry : Entry) → slice_get (alone_of _row.now _messages.now) v ≡ Some entry
        → IsInput entry.input }
    ensures writable { (v : ℕ) (entry : Entry) → slice_get (alone_of _row.now _messages.now) v ≡ Some entry
        → All (IsWritable _row.now) entry.step.effects }
    ensures sent { (v : ℕ) (entry : Entry) → slice_get (alone_of _row.now _messages.now) v ≡ Some entry
        → All IsSent entry.step.effects }
{}

/// A session that awaits a second connection, or has one, is that of a row with an access point name and an address for it.
#[tactic(auto, using(crate::proofs::Courses::both_entry))]
pub fn alone_has_both(_row: &Subscriber, _messages: &[Message])
    ensures { (v : ℕ) (entry : Entry) → slice_get (alone_of _row.now _messages.now) v ≡ Some entry
        → MayBeOf _row.now entry.step.session }
{}
