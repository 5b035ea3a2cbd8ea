//! What became of the devices of a world.
ghost use Rattle.std.specs.Prelude.{◌≡◌, length, IfOk};
ghost use Rattle.device_types.specs.Numbers.{IsWithin};
ghost use Rattle.link_schedule.specs.Finals.{end_in, finals_in};

use crate::world::World;
use device_types::{DeviceEnd, DeviceId, Down, Downs, Finals, TryCopy};
use std::alloc::{AllocError, Global};

/// The messages to a device, each copied.
fn copied_downs(alloc: Global, downs: &[Down]) -> Result<Downs, AllocError>
    ensures { IfOk result (λ copies. copies ≡ downs.now) }
{
    let mut copies = Downs::new(alloc);
    for down in downs {
        copies.push(down.copy()?)?;
    }
    Ok(copies)
}

impl World {
    /// What became of the device so far. It fails for want of memory alone.
    fn end_at(&self, alloc: Global, d: DeviceId) -> Result<DeviceEnd, AllocError>
        requires { IsWithin (length self.now.setting.rows) d.0 }
        ensures { IfOk result (λ end. end ≡ end_in self.now d.0) }
    {
        let row = self.row(d);
        Ok(DeviceEnd {
            messages: self.taken_count(d),
            steps: row.version(),
            downs: copied_downs(alloc, self.agent(d).downs())?,
            gateway: self.gateway.calls(alloc, d)?,
            subscriber: self.server.calls(alloc, d)?,
            session: row.session()?,
        })
    }

    /// What became of each device so far, in the order of their numbers: how many messages were taken and steps committed, which
    /// effects of each lane were accepted, and the session. It fails for want of memory alone.
    pub fn finals(&self, alloc: Global) -> Result<Finals, AllocError>
        ensures { IfOk result (λ finals. finals ≡ finals_in self.now) }
    {
        let mut finals = Finals::new(alloc);
        for index in 0..self.device_count() {
            finals.push(self.end_at(alloc, DeviceId(index + 1))?)?;
        }
        Ok(finals)
    }
}
