//! What is wanted twice: by the row or whoever called, and for the turn that is noted.
ghost use Rattle.std.specs.Prelude.{◌≡◌, ◌≤◌, take, IfOk, IfErr, OnOk, OnErr};
ghost use Rattle.device_types.specs.Journal.{version_of};
ghost use Rattle.session_row.specs.Row.{Commits};
ghost use Rattle.session_store.specs.Rows.{unsettled_effect};
ghost use Rattle.session_store.specs.Seen.{IsAsked, peeked_of, seen_of};
ghost use Rattle.session_store.specs.Shards.{IsHere, row_in, journal_in, with_row};

use device_types::{DeviceId, Effect, Entry, Lane, NoRoom, Shared, TryCopy};
use session_row::Commit;
use session_store::{Asked, Peeked, RowLaw, Seen, Shard};
use std::alloc::{AllocError, Global};

// A value, and a copy of it.
fn with_copy<A: TryCopy + Drop>(value: A) -> Result<(A, A), AllocError>
    ensures value { IfOk result (λ both. both.0 ≡ value) }
    ensures copy { IfOk result (λ both. both.1 ≡ both.0) }
{
    let kept = value.copy()?;
    Ok((value, kept))
}

/// What is seen of the row of a device, about an input, and the same once more.
pub fn read_twice<L: RowLaw>(
    shard: &Shard<L>,
    d: DeviceId,
    asked: Asked,
) -> Result<(Seen, Seen), AllocError>
    requires here { IsHere shard.now d.0 }
    requires asked { IsAsked asked }
    ensures value { IfOk result (λ both. both.0 ≡ seen_of (journal_in shard.now.rows d.0) asked) }
    ensures copy { IfOk result (λ both. both.1 ≡ both.0) }
{
    let seen = shard.read(d, asked)?;
    with_copy(seen)
}

/// The same without the session.
pub fn peek_twice<L: RowLaw>(
    shard: &Shard<L>,
    d: DeviceId,
    asked: Asked,
) -> Result<(Peeked, Peeked), AllocError>
    requires here { IsHere shard.now d.0 }
    requires asked { IsAsked asked }
    ensures value { IfOk result (λ both. both.0 ≡ peeked_of (journal_in shard.now.rows d.0) asked) }
    ensures copy { IfOk result (λ both. both.1 ≡ both.0) }
{
    let peeked = shard.peek(d, asked)?;
    with_copy(peeked)
}

/// Effect `k` of a lane of the device, as the row has it, and the same once more: both share it.
pub fn push_twice<L: RowLaw>(
    alloc: Global,
    shard: &Shard<L>,
    d: DeviceId,
    lane: Lane,
    k: u64,
) -> Result<(Option<Shared<Effect>>, Option<Shared<Effect>>), AllocError>
    requires { IsHere shard.now d.0 }
    ensures value { IfOk result (λ both. both.0 ≡ unsettled_effect (row_in shard.now.rows d.0) lane k) }
    ensures copy { IfOk result (λ both. both.1 ≡ both.0) }
{
    let Some(effect) = shard.push(d, lane, k)? else {
        return Ok((None, None));
    };
    let effect = Shared::new(alloc, effect)?;
    let (effect, kept) = with_copy(effect)?;
    Ok((Some(effect), Some(kept)))
}

/// Writes an entry, where the row still has the version that was read, and gives a copy of it.
pub fn commit_copied<L: RowLaw>(
    shard: &mut Shard<L>,
    d: DeviceId,
    read: u64,
    entry: Entry,
) -> Result<(Commit, Entry), NoRoom<Entry>>
    requires here { IsHere shard.old d.0 }
    requires version { read ≤ version_of (journal_in shard.old.rows d.0) }
    requires law { L.follows shard.old.charter d.0 (take read (journal_in shard.old.rows d.0)) entry }
    ensures commit { IfOk result (λ made. Commits (row_in shard.old.rows d.0) (row_in shard.new.rows d.0) read entry made.0) }
    ensures copy { IfOk result (λ made. made.1 ≡ entry) }
    ensures others { OnOk result (shard.new ≡ record shard.old { rows = with_row shard.old.rows d.0 (row_in shard.new.rows d.0) }) }
    ensures err { OnErr result (shard.new ≡ shard.old) }
    ensures back { IfErr result (λ room. room.0 ≡ entry) }
{
    let Ok(kept) = entry.copy() else {
        return Err(NoRoom(entry));
    };
    let commit = shard.commit(d, read, entry)?;
    Ok((commit, kept))
}
