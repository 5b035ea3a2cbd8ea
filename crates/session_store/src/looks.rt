//! What is seen of a row.
ghost use Rattle.std.specs.Prelude.{◌≡◌, ◌↔◌, IfOk, IsSome};
ghost use Rattle.session_store.specs.Seen.{IsAsked, IsRepeat, look_to, repeated_reply, peeked_of, seen_of};

use crate::asked::{Asked, Peeked, Seen};
use crate::shard::DeviceRow;
use device_types::{Look, Reply, Shared, TryCopy};
use std::alloc::AllocError;

/// What the row says to an input.
fn look_to(row: &DeviceRow, asked: Asked) -> Look
    ensures { result ≡ look_to row.now.journal asked }
{
    match asked {
        Asked::Message(n) => row.look(n),
        Asked::Answer(lane, k) => row.look_answer(lane, k),
    }
}

/// The reply to the message of which the row says that it is a repeat.
fn repeated_reply(row: &DeviceRow, asked: Asked, look: Look) -> Result<Option<Reply>, AllocError>
    requires asked { IsAsked asked }
    requires look { look ≡ look_to row.now.journal asked }
    ensures { IfOk result (λ reply. reply ≡ repeated_reply row.now.journal look) }
{
    let Look::Repeat(n) = look else {
        return Ok(None);
    };
    match row.reply(n) {
        Some(reply) => Ok(Some(reply.copy()?)),
        None => Ok(None),
    }
}

/// What is seen of a row about an input, but for the session: with the reply exactly where it is a repeat.
pub(crate) fn peeked_of(row: &DeviceRow, asked: Asked) -> Result<Peeked, AllocError>
    requires { IsAsked asked }
    ensures ok { IfOk result (λ peeked. peeked ≡ peeked_of row.now.journal asked) }
    ensures told { IfOk result (λ peeked. IsSome peeked.reply ↔ IsRepeat peeked.look) }
{
    let look = look_to(row, asked);
    Ok(Peeked {
        version: row.version(),
        look,
        reply: repeated_reply(row, asked, look)?,
    })
}

/// What is seen of a row about an input: with the reply exactly where it is a repeat.
pub(crate) fn seen_of(row: &DeviceRow, asked: Asked) -> Result<Seen, AllocError>
    requires { IsAsked asked }
    ensures ok { IfOk result (λ seen. seen ≡ seen_of row.now.journal asked) }
    ensures told { IfOk result (λ seen. IsSome seen.reply ↔ IsRepeat seen.look) }
{
    let session = row.session()?;
    let session = Shared::new(session.alloc(), session)?;
    let Peeked {
        version,
        look,
        reply,
    } = peeked_of(row, asked)?;
    Ok(Seen {
        version,
        session,
        look,
        reply,
    })
}
