//! What a write needs memory for.
ghost use Rattle.std.specs.Prelude.{◌≡◌, ◌+◌, ◌≤◌, ◌<◌, ◌^◌, ◌∷◌, [], length, vec_len, vec_capacity, IfOk, OnOk, option_to_list, if◌then◌else◌};
ghost use Rattle.device_types.specs.declared.event.Lane.TheVariants as lane;
ghost use Rattle.device_types.specs.Journal.{effects_on, is_message, reply_to};
ghost use Rattle.device_types.specs.Session.{IsSession};
ghost use Rattle.session_form.specs.Form.{form_of};

use device_types::{Effect, Effects, Entry, Input, Octets, Reply, TryCopy};
use effect_outbox::Outbox;
use session_form::write_session;
use std::alloc::{AllocError, Global};

/// What a write moves into the row, besides the entry.
#[derive(Debug, Drop)]
pub(crate) struct Prepared {
    /// The octets of the step's session.
    pub(crate) session: Octets,
    /// The effects of the step.
    pub(crate) effects: Effects,
    /// The reply to the message of the entry, if it is one of a message.
    pub(crate) reply: Option<Reply>,
}

/// The messages to the device among the effects, in their order: what a device is told of its message.
pub fn downs_of(alloc: Global, effects: &[Effect]) -> Result<Effects, AllocError>
    ensures { IfOk result (λ downs. downs ≡ effects_on lane.Down effects.now) }
{
    let mut downs = Effects::new(alloc);
    for effect in effects {
        if let Effect::Down(_) = effect {
            downs.push(effect.copy()?)?;
        }
    }
    Ok(downs)
}

/// The reply to the message of the entry, if it is one of a message.
fn reply_for(
    alloc: Global,
    number: u64,
    version: u64,
    entry: &Entry,
) -> Result<Option<Reply>, AllocError>
    ensures { IfOk result (λ reply. option_to_list reply ≡ (if is_message entry.now.input then reply_to number version entry.now ∷ [] else [])) }
{
    match entry.input.get() {
        Input::Message(_) => Ok(Some(Reply {
            number,
            version,
            downs: downs_of(alloc, entry.step.effects.items())?,
        })),
        Input::Answer { .. } => Ok(None),
    }
}

/// Makes room for an entry behind so many messages and for its effects, writes its session, and copies what goes elsewhere in the
/// row.
#[tactic(auto, using(session_form::proofs::Sessions::in_range))]
pub(crate) fn prepare(
    journal: &mut Vec<Entry>,
    outbox: &mut Outbox,
    taken: u64,
    entry: &Entry,
) -> Result<Prepared, AllocError>
    requires session { IsSession entry.now.step.session }
    requires taken { taken ≤ length journal.old.items }
    ensures journal { journal.new.items ≡ journal.old.items }
    ensures journal_room { OnOk result (vec_len journal.new < vec_capacity journal.new) }
    ensures outbox { outbox.new ≡ record outbox.old { room = outbox.new.room } }
    ensures outbox_room { OnOk result (length entry.now.step.effects ≤ outbox.new.room) }
    ensures counted { OnOk result (taken + 1 < 2 ^ 64) }
    ensures session { IfOk result (λ prepared. prepared.session ≡ form_of entry.now.step.session) }
    ensures effects { IfOk result (λ prepared. prepared.effects ≡ entry.now.step.effects) }
    ensures reply { IfOk result (λ prepared. option_to_list prepared.reply
        ≡ (if is_message entry.now.input then reply_to (taken + 1) (length journal.old.items + 1) entry.now ∷ [] else [])) }
{
    journal.reserve(1)?;
    outbox.reserve(entry.step.effects.items().len())?;
    let alloc = *journal.allocator();
    let version = journal.len() as u64 + 1;
    Ok(Prepared {
        session: write_session(alloc, entry.step.session.get())?,
        effects: entry.step.effects.copy()?,
        reply: reply_for(alloc, taken + 1, version, entry)?,
    })
}
