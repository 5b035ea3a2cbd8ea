//! A shard of the peers, as a value of a front.
ghost use Rattle.std.specs.Prelude.{◌≡◌, ◌≤◌, ◌<◌, ◌-◌, ◌∷◌, ◌++◌, [], length, slice_get, Some, IfOk, IfErr, OnOk, OnErr};
ghost use Rattle.std.specs.Arc.{arc_value};
ghost use Rattle.device_types.specs.Numbers.{IsWithin};
ghost use Rattle.store_shared.specs.declared.turn.TurnAnswer.TheVariants as answers;
ghost use Rattle.store_shared.specs.Legal.{IsTurn, peers_say, IsPeerHistory, AreAcceptedIn};
ghost use Rattle.store_shared.specs.PeerShards.{IsPeerShard, IsOffered, offer_by};

use crate::basis::PeerBasis;
use crate::turn::{Turn, TurnAnswer, TurnCall};
use device_types::{DeviceId, Effect, NoRoom, Offer, Shared, Subscriber};
use front_lock::Held;
use session_store::{EchoLaw, RowLaw};
use shard_parts::Peers;
use std::alloc::{AllocError, Global};

/// A shard of the peers: what they have accepted of its devices, and the turns that made it so. It is given out when the peers are
/// closed.
#[derive(Drop)]
pub struct PeerShard {
    pub(crate) number: u32,
    pub(crate) law: EchoLaw,
    pub(crate) peers: Peers,
    pub(crate) turns: Vec<Turn>,
    ghost kept: { IsPeerShard (arc_value law.charter) number peers turns.items },
}

impl Held for PeerShard {
    type Turn = Turn;

    type Basis = PeerBasis;

    ghost basis = { λ t. record { shard = t.number; charter = arc_value t.law.charter } };

    ghost turns = { λ t. t.turns.items };

    ghost by = { λ x. x.seat };

    fn turn_count(&self) -> u64 {
        self.turns.len() as u64
    }
}

/// The row of a device. It takes no memory.
fn row_at(law: &EchoLaw, d: DeviceId) -> &Subscriber
    requires { IsWithin (length (arc_value law.now.charter).rows) d.0 }
    ensures row { slice_get (arc_value law.now.charter).rows (d.0 - 1) ≡ Some result.now }
    ensures number { result.now.number ≡ d.0 }
    ensures tunnel { result.now.teid ≤ 4000000000 }
{
    &law.charter().rows()[d.0 as usize - 1]
}

impl PeerShard {
    /// The shard of that number, without turns. It fails for want of memory alone.
    pub(crate) fn new(alloc: Global, law: EchoLaw, number: u32) -> Result<PeerShard, AllocError>
        ensures number { IfOk result (λ shard. shard.number ≡ number) }
        ensures charter { IfOk result (λ shard. arc_value shard.law.charter ≡ arc_value law.charter) }
        ensures turns { IfOk result (λ shard. shard.turns.items ≡ []) }
    {
        let devices = law.charter().rows().len() as u32;
        let peers = Peers::new(alloc, devices)?;
        Ok(PeerShard {
            number,
            law,
            peers,
            turns: Vec::new(alloc),
        })
    }

    /// The turns that were made on it, the oldest first: a legal history of the shard, and what it says was accepted is lawful. It
    /// takes no memory.
    pub fn turns(&self) -> &[Turn]
        ensures turns { result.now ≡ self.now.turns.items }
        ensures legal { IsPeerHistory (arc_value self.now.law.charter) self.now.number self.now.turns.items }
        ensures lawful { AreAcceptedIn (arc_value self.now.law.charter) self.now.turns.items }
    {
        let turns: &[Turn] = &self.turns;
        turns
    }

    /// Call `k` of a device arrives at the peer of its lane.
    pub(crate) fn offer(
        &mut self,
        seat: u32,
        d: DeviceId,
        k: u64,
        call: Shared<Effect>,
    ) -> Result<Offer, NoRoom<Shared<Effect>>>
        requires offered { IsOffered (arc_value self.old.law.charter) self.old.number d.0 k call }
        ensures basis { (self.new.number ≡ self.old.number) × (arc_value self.new.law.charter ≡ arc_value self.old.law.charter) }
        ensures turn { IfOk result (λ offer. self.new.turns.items ≡ self.old.turns.items ++ offer_by seat d k call (answers.Offer offer) ∷ []) }
        ensures legal { IfOk result (λ offer. IsTurn (peers_say (arc_value self.old.law.charter).rows) self.old.number (length (arc_value self.old.law.charter).rows) self.old.turns.items (offer_by seat d k call (answers.Offer offer))) }
        ensures lawful { OnOk result (AreAcceptedIn (arc_value self.new.law.charter) self.new.turns.items) }
        ensures err { OnErr result (self.new.turns.items ≡ self.old.turns.items) }
        ensures back { IfErr result (λ room. room.0 ≡ call) }
    {
        if self.turns.reserve(1).is_err() {
            return Err(NoRoom(call));
        }
        let row = row_at(&self.law, d);
        let Ok((offer, kept)) = self.peers.offer_twice(row, k, call.get()) else {
            return Err(NoRoom(call));
        };
        self.turns.push_reserved(Turn {
            seat,
            device: d,
            call: TurnCall::Offer { k, call },
            answer: TurnAnswer::Offer(kept),
        });
        Ok(offer)
    }
}
