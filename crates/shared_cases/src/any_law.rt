//! A law that allows whatever a row takes, and stores of 32 devices under it.
ghost use Rattle.std.specs.Prelude.{[], IfOk};
ghost use Rattle.std.specs.Arc.{arc_value};
ghost use Rattle.session_store.specs.Law.{CanFollow};

use device_types::{
    Body, Book, CauseCode, Down, Effect, Effects, Entry, Input, Message, Session, Step,
};
use session_store::{Charter, EchoLaw, RowLaw};
use std::alloc::{AllocError, Global};
use subs_table::SubsTable;

/// Allows whatever a row takes.
#[derive(Drop)]
pub(crate) struct AnyLaw {
    under: EchoLaw,
}

impl RowLaw for AnyLaw {
    ghost charter = { λ law. arc_value law.under.charter };

    ghost follows = { λ charter d journal entry. CanFollow journal entry };

    ghost can_follow = { λ charter d journal entry in_form lawful follows. follows };

    fn charter(&self) -> &Charter {
        self.under.charter()
    }

    fn copy(&self) -> Result<AnyLaw, AllocError> {
        Ok(AnyLaw {
            under: self.under.copy()?,
        })
    }
}

pub(crate) fn any_law(alloc: Global) -> Result<AnyLaw, AllocError> {
    Ok(AnyLaw {
        under: EchoLaw::new(alloc, &SubsTable::new(alloc), &Book::new(alloc))?,
    })
}

/// The first message of a device, with one message to it.
#[tactic(auto, using(crate::proofs::Entries::opening_in_range))]
pub(crate) fn first_entry(alloc: Global) -> Result<Entry, AllocError>
    ensures { IfOk result (CanFollow []) }
{
    let down = Effect::Down(Down::Release {
        station: 1,
        enb: 7,
        cause: CauseCode {
            group: 0,
            extended: false,
            index: 0,
        },
    });
    let effects = Effects::from(Vec::from_array(alloc, [down])?);
    let message = Message {
        number: 1,
        station: 1,
        enb: 7,
        body: Body::Service,
    };
    let step = Step::new(Session::opening(alloc), effects)?;
    Entry::new(alloc, Input::Message(message), step)
}
