//! A law of tests, which makes its entries too.
ghost use Rattle.std.specs.Arc.{arc_value};
ghost use Rattle.disk_cases.specs.Numbered.{numbered_at, follows_number, numbered_can_follow};

use device_types::{Body, Book, DeviceId, Effects, Entry, Input, Message, Session, Step};
use session_disk::Maker;
use session_store::{Charter, EchoLaw, RowLaw};
use std::alloc::{AllocError, Global};
use subs_table::SubsTable;

/// Entry v of device d, from 0, is message v + 1, behind which the session tells both; there are a million for each of 99 devices.
#[derive(Drop)]
pub struct NumberedLaw {
    under: EchoLaw,
    alloc: Global,
}

impl NumberedLaw {
    /// The law, under no subscriber.
    pub(crate) fn new(alloc: Global) -> Result<NumberedLaw, AllocError> {
        let under = EchoLaw::new(alloc, &SubsTable::new(alloc), &Book::new(alloc))?;
        Ok(NumberedLaw { under, alloc })
    }

    /// Where it takes its memory.
    pub(crate) fn alloc(&self) -> Global {
        self.alloc
    }
}

impl RowLaw for NumberedLaw {
    ghost charter = { λ law. arc_value law.under.charter };

    ghost follows = { follows_number };

    ghost can_follow = { numbered_can_follow };

    fn charter(&self) -> &Charter {
        self.under.charter()
    }

    fn copy(&self) -> Result<NumberedLaw, AllocError> {
        Ok(NumberedLaw {
            under: self.under.copy()?,
            alloc: self.alloc,
        })
    }
}

impl Maker<NumberedLaw> for NumberedLaw {
    ghost charter = { λ law. arc_value law.under.charter };

    ghost made = { λ charter d v. numbered_at d v };

    ghost only = { λ charter d journal entry lawful. (λ h. h, λ h. h) };

    fn entry(&self, d: DeviceId, version: u64) -> Result<Option<Entry>, AllocError> {
        if d.0 >= 100 || version >= 1_000_000 {
            return Ok(None);
        }
        let mut session = Session::opening(self.alloc);
        session.teid = d.0;
        session.ip = version as u32 + 1;
        let message = Message {
            number: version + 1,
            station: 1,
            enb: 7,
            body: Body::Service,
        };
        let step = Step::new(session, Effects::new(self.alloc))?;
        let entry = Entry::new(self.alloc, Input::Message(message), step)?;
        Ok(Some(entry))
    }
}
