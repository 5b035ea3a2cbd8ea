//! An offer, as a job of a front.
ghost use Rattle.std.specs.Prelude.{◌≡◌, [], ◌∷◌, ◌++◌, length};
ghost use Rattle.store_shared.specs.declared.turn.TurnAnswer.TheVariants as answers;
ghost use Rattle.store_shared.specs.Legal.{IsTurn, peers_say, AreAcceptedIn};
ghost use Rattle.store_shared.specs.PeerShards.{IsOffered, offer_by};

use crate::peer_shard::PeerShard;
use device_types::{DeviceId, Effect, NoRoom, Offer, Shared};
use front_lock::Job;

/// A call of a device arrives at its peer.
#[derive(Drop)]
pub(crate) struct OfferJob {
    pub(crate) d: DeviceId,
    pub(crate) k: u64,
    pub(crate) call: Shared<Effect>,
}

impl Job<PeerShard> for OfferJob {
    type Answer = Offer;

    ghost can = { λ j b h. IsOffered b.charter b.shard j.d.0 j.k j.call };

    ghost done = { λ j b h x a. (x ≡ offer_by x.seat j.d j.k j.call (answers.Offer a)) × IsTurn (peers_say b.charter.rows) b.shard (length b.charter.rows) h x × AreAcceptedIn b.charter (h ++ x ∷ []) };

    fn run(self, value: &mut PeerShard, seat: u32) -> Result<Offer, NoRoom<OfferJob>> {
        let OfferJob { d, k, call } = self;
        match value.offer(seat, d, k, call) {
            Ok(offer) => Ok(offer),
            Err(NoRoom(call)) => Err(NoRoom(OfferJob { d, k, call })),
        }
    }

    ghost stays = { λ j b h more c. c };
}
