//! The steps of a device.
ghost use Rattle.std.specs.Prelude.{◌≡◌, IfOk};

use crate::effect::Effects;
use crate::input::Input;
use crate::session::Session;
use crate::shared::Shared;
use crate::try_copy::TryCopy;
use std::alloc::{AllocError, Global};

/// What follows from an input.
#[derive(Clone, Debug, Drop)]
pub struct Step {
    /// The session after the input.
    pub session: Shared<Session>,
    /// What is sent, in order.
    pub effects: Effects,
}

impl Step {
    /// The step to that session, which sends these. It fails for want of memory alone.
    pub fn new(session: Session, effects: Effects) -> Result<Step, AllocError>
        ensures { IfOk result (λ step. step ≡ record { session = session; effects = effects }) }
    {
        Ok(Step {
            session: Shared::new(session.alloc(), session)?,
            effects,
        })
    }
}

impl TryCopy for Step {
    ghost use Rattle.std.proofs.Common.{rules};

    ghost same = { Prim.search rules };
}

/// An entry of a device's journal: an input, and the step that was made of it.
#[derive(Clone, Debug, Drop)]
pub struct Entry {
    /// The input.
    pub input: Shared<Input>,
    /// Its step.
    pub step: Step,
}

impl Entry {
    /// The entry of an input and its step. It fails for want of memory alone.
    pub fn new(alloc: Global, input: Input, step: Step) -> Result<Entry, AllocError>
        ensures { IfOk result (λ entry. entry ≡ record { input = input; step = step }) }
    {
        Ok(Entry {
            input: Shared::new(alloc, input)?,
            step,
        })
    }
}

impl TryCopy for Entry {
    ghost use Rattle.std.proofs.Common.{rules};

    ghost same = { Prim.search rules };
}

/// The reply to a message of a device.
#[derive(Clone, Debug, Drop)]
pub struct Reply {
    /// The number of the message, from 1.
    pub number: u64,
    /// How many steps the device had made with that of the message.
    pub version: u64,
    /// The messages to the device that its step made, in order.
    pub downs: Effects,
}

impl TryCopy for Reply {
    ghost use Rattle.std.proofs.Common.{rules};

    ghost same = { Prim.search rules };
}
