//! Laws of every list of events, as clauses of functions that do nothing. The answer to each event is that of the definition.
ghost use Rattle.std.specs.Prelude.{◌≡◌, ℕ, All};
ghost use Rattle.epoch_agents.specs.declared.event.EpochAnswer.TheVariants as told;
ghost use Rattle.epoch_agents.specs.declared.event.EpochEvent.{EpochEvent};
ghost use Rattle.epoch_agents.specs.declared.event.EpochEvent.TheVariants as happens;
ghost use Rattle.epoch_agents.specs.Answer.{answer, turn, history, IsEvent};
ghost use Rattle.epoch_agents.specs.Counts.{merge};
ghost use Rattle.epoch_agents.specs.Merge.{IsMerge, IsPassed};

use crate::event::EpochEvent;
use crate::stream::Stream;

/// The names in the merge never fall, each stream has at most one name in it, whatever it was renamed, and what is committed of a
/// stream are its first messages, each once and in order.
pub fn merge_keeps_streams(_streams: &[Stream], _events: &[EpochEvent])
    requires { All (IsEvent _streams.now) _events.now }
    ensures { IsMerge _streams.now (merge (history _streams.now _events.now)) }
{}

/// A name that was told to be low has nothing committed, and stays so, below the current one, whatever comes.
pub fn low_names_stay_low(_streams: &[Stream], _events: &[EpochEvent])
    requires { All (IsEvent _streams.now) _events.now }
    ensures told { let turns = history _streams.now _events.now in
        (a stamp n low : ℕ) → answer _streams.now turns (happens.Arrive a stamp n) ≡ told.Low low → IsPassed _streams.now (merge turns) a stamp }
    ensures stays { let turns = history _streams.now _events.now in
        (e : EpochEvent) (a stamp : ℕ) → IsEvent _streams.now e → IsPassed _streams.now (merge turns) a stamp → IsPassed _streams.now (merge (turn _streams.now turns e)) a stamp }
{}
