//! Laws of every list of events, as clauses of functions that do nothing. The answer to each event is that of the definition; a
//! device is named by its number, from 1.
ghost use Rattle.std.specs.Prelude.{◌≡◌, ◌≢◌, ◌↔◌, ◌≤◌, ◌<◌, ◌+◌, ◌-◌, ℕ, true, length, take, slice_get, All, Some, IsSome, IsSomeAnd};
ghost use Rattle.device_types.specs.declared.event.Event.{Event};
ghost use Rattle.device_types.specs.declared.event.Event.TheVariants as happens;
ghost use Rattle.device_types.specs.declared.event.EventAnswer.{EventAnswer};
ghost use Rattle.device_types.specs.declared.event.EventAnswer.TheVariants as told;
ghost use Rattle.device_types.specs.declared.event.Lane.{Lane};
ghost use Rattle.device_types.specs.Alone.{entry_of};
ghost use Rattle.device_types.specs.Journal.{version_of, effects_of, pushed_count, taken_count, reply_of, awaited_call};
ghost use Rattle.schedule_laws.specs.Answer.{answer, turn, history, IsEvent};
ghost use Rattle.schedule_laws.specs.Counts.{Arrival, hand, commits, acked, accepted, settled, message_sent, reply_sent, effect_pushed, effect_received, journal};
ghost use Rattle.schedule_laws.specs.Counts.Arrival.{TheMessage, TheAnswer};
ghost use Rattle.schedule_laws.specs.Counts.Held.{Nothing, Ready};
ghost use Rattle.schedule_laws.specs.Input.{input_of};
ghost use Rattle.schedule_laws.specs.Lists.{Begins};
ghost use Rattle.schedule_laws.specs.Origins.{ends, IsFrom, IsReadySince};
ghost use Rattle.schedule_laws.specs.Packets.{message_packet, reply_packet, effect_packet};
ghost use Rattle.schedule_laws.specs.Promise.{setting, is_void, Holds, IsAsBefore};
ghost use Rattle.schedule_laws.specs.Reads.{IsToldOfMessage, IsToldOfAnswer};
ghost use Rattle.schedule_laws.specs.Setting.{window, row_of, messages_of, message_count, entries_to, entries_of};

use device_types::{Book, Event, Subscriber};

/// The steps that were committed are the first of the machine that never fails, and the version of a row counts them.
pub fn commits_begin_alone(_rows: &[Subscriber], _book: &Book, _replicas: u32, _events: &[Event])
    requires { All (IsEvent (setting _rows.now _book.now _replicas)) _events.now }
    ensures version { let s = setting _rows.now _book.now _replicas in let turns = history s _events.now in
        (d : ℕ) → version_of (journal s d turns) ≡ commits d turns }
    ensures steps { let s = setting _rows.now _book.now _replicas in let turns = history s _events.now in
        (d : ℕ) → journal s d turns ≡ take (commits d turns) (entries_of s d) }
{}

/// The effects that were accepted are the first of the lane of the machine that never fails; an effect was received exactly where
/// it is one of them, and none was settled before.
pub fn accepts_begin_alone(_rows: &[Subscriber], _book: &Book, _replicas: u32, _events: &[Event])
    requires { All (IsEvent (setting _rows.now _book.now _replicas)) _events.now }
    ensures made { let s = setting _rows.now _book.now _replicas in let turns = history s _events.now in
        (d : ℕ) (l : Lane) → accepted d l turns ≤ pushed_count l (journal s d turns) }
    ensures effects { let s = setting _rows.now _book.now _replicas in let turns = history s _events.now in
        (d : ℕ) (l : Lane) → take (accepted d l turns) (effects_of l (journal s d turns)) ≡ take (accepted d l turns) (effects_of l (entries_of s d)) }
    ensures received { let s = setting _rows.now _book.now _replicas in let turns = history s _events.now in
        (d : ℕ) (l : Lane) (k : ℕ) → 1 ≤ k → (effect_received d l k turns ≡ true) ↔ (k ≤ accepted d l turns) }
    ensures settled { let s = setting _rows.now _book.now _replicas in let turns = history s _events.now in
        (d : ℕ) (l : Lane) → settled d l turns ≤ accepted d l turns }
{}

/// A step is committed exactly where the version that was read is current, and is then the next one of the machine that never fails.
pub fn write_commits_current(_rows: &[Subscriber], _book: &Book, _replicas: u32, _events: &[Event])
    requires { All (IsEvent (setting _rows.now _book.now _replicas)) _events.now }
    ensures committed { let s = setting _rows.now _book.now _replicas in let turns = history s _events.now in
        (r d v : ℕ) (what : Arrival) → r ≤ _replicas → hand r turns ≡ Ready d what v
        → (answer s turns (happens.Write r) ≡ told.Committed (v + 1)) ↔ (commits d turns ≡ v) }
    ensures stale { let s = setting _rows.now _book.now _replicas in let turns = history s _events.now in
        (r d v : ℕ) (what : Arrival) → r ≤ _replicas → hand r turns ≡ Ready d what v
        → commits d turns ≢ v → answer s turns (happens.Write r) ≡ told.Stale v (commits d turns) }
    ensures step { let s = setting _rows.now _book.now _replicas in let turns = history s _events.now in
        (r d v : ℕ) (what : Arrival) → hand r turns ≡ Ready d what v
        → slice_get (entries_of s d) v ≡ Some (entry_of (row_of s d) (entries_to s d v) (input_of s d what)) }
{}

/// With one replica no write is stale.
pub fn one_replica_is_never_stale(_rows: &[Subscriber], _book: &Book, _events: &[Event])
    requires { All (IsEvent (setting _rows.now _book.now 1)) _events.now }
    ensures { let s = setting _rows.now _book.now 1 in let turns = history s _events.now in
        (r v w : ℕ) → 1 ≤ r → answer s turns (happens.Write r) ≢ told.Stale v w }
{}

/// A message that was taken, and is among the last four that were, is answered as a repeat, and no other message is; its reply is
/// stored, and is that of the machine that never fails; and the reply that is on the link then is the stored one.
pub fn repeat_gets_stored_reply(
    _rows: &[Subscriber],
    _book: &Book,
    _replicas: u32,
    _events: &[Event],
)
    requires { All (IsEvent (setting _rows.now _book.now _replicas)) _events.now }
    ensures repeat { let s = setting _rows.now _book.now _replicas in let turns = history s _events.now in
        (r d n : ℕ) → r ≤ _replicas → Holds d (TheMessage n) (hand r turns)
        → (answer s turns (happens.Read r) ≡ told.Repeat n)
        ↔ ((n ≤ taken_count (journal s d turns)) × (taken_count (journal s d turns) < n + window)) }
    ensures stored { let s = setting _rows.now _book.now _replicas in let turns = history s _events.now in
        (d n : ℕ) → 1 ≤ n → n ≤ taken_count (journal s d turns) → IsSome (reply_of (journal s d turns) n) }
    ensures reply { let s = setting _rows.now _book.now _replicas in let turns = history s _events.now in
        (d n : ℕ) → 1 ≤ n → n ≤ taken_count (journal s d turns) → reply_of (journal s d turns) n ≡ reply_of (entries_of s d) n }
    ensures gets { let s = setting _rows.now _book.now _replicas in let turns = history s _events.now in
        (r d n : ℕ) → Holds d (TheMessage n) (hand r turns) → answer s turns (happens.Read r) ≡ told.Repeat n
        → IsSomeAnd (reply_packet s turns d n) (λ reply. reply_of (journal s d turns) n ≡ Some reply) }
{}

/// A message that its agent has not seen acknowledged is never answered as settled.
pub fn unacknowledged_is_not_settled(
    _rows: &[Subscriber],
    _book: &Book,
    _replicas: u32,
    _events: &[Event],
)
    requires { All (IsEvent (setting _rows.now _book.now _replicas)) _events.now }
    ensures { let s = setting _rows.now _book.now _replicas in let turns = history s _events.now in
        (r d n : ℕ) → Holds d (TheMessage n) (hand r turns) → acked d turns < n
        → answer s turns (happens.Read r) ≢ told.Settled n }
{}

/// A message that was sent is in its device's line, within the window behind the last acknowledged one; no more messages are taken
/// than that; and the reply to a message is on its link exactly where the message was taken.
pub fn window_holds(_rows: &[Subscriber], _book: &Book, _replicas: u32, _events: &[Event])
    requires { All (IsEvent (setting _rows.now _book.now _replicas)) _events.now }
    ensures sent { let s = setting _rows.now _book.now _replicas in let turns = history s _events.now in
        (d n : ℕ) → message_sent d n turns ≡ true → (1 ≤ n) × (n ≤ message_count s d) × (n ≤ acked d turns + window) }
    ensures acked { let s = setting _rows.now _book.now _replicas in let turns = history s _events.now in
        (d : ℕ) → acked d turns ≤ taken_count (journal s d turns) }
    ensures taken { let s = setting _rows.now _book.now _replicas in let turns = history s _events.now in
        (d : ℕ) → taken_count (journal s d turns) ≤ acked d turns + window }
    ensures replies { let s = setting _rows.now _book.now _replicas in let turns = history s _events.now in
        (d n : ℕ) → 1 ≤ n → (reply_sent d n turns ≡ true) ↔ (n ≤ taken_count (journal s d turns)) }
{}

/// An event that is answered as void changes nothing: no count, no hand and no link.
pub fn void_changes_nothing(_rows: &[Subscriber], _book: &Book, _replicas: u32, _events: &[Event])
    requires { All (IsEvent (setting _rows.now _book.now _replicas)) _events.now }
    ensures { let s = setting _rows.now _book.now _replicas in let turns = history s _events.now in
        (e : Event) → is_void (answer s turns e) ≡ true → IsAsBefore turns (turn s turns e) }
{}

/// No event takes back what was: a journal goes on where it ended, what was acknowledged, accepted and settled stays so, and what was
/// on a link stays on it.
pub fn nothing_is_taken_back(_rows: &[Subscriber], _book: &Book, _replicas: u32, _events: &[Event])
    ensures journal { let s = setting _rows.now _book.now _replicas in let turns = history s _events.now in
        (d : ℕ) (e : Event) → Begins (journal s d turns) (journal s d (turn s turns e)) }
    ensures acked { let s = setting _rows.now _book.now _replicas in let turns = history s _events.now in
        (d : ℕ) (e : Event) → acked d turns ≤ acked d (turn s turns e) }
    ensures accepted { let s = setting _rows.now _book.now _replicas in let turns = history s _events.now in
        (d : ℕ) (l : Lane) (e : Event) → accepted d l turns ≤ accepted d l (turn s turns e) }
    ensures settled { let s = setting _rows.now _book.now _replicas in let turns = history s _events.now in
        (d : ℕ) (l : Lane) (e : Event) → settled d l turns ≤ settled d l (turn s turns e) }
    ensures messages { let s = setting _rows.now _book.now _replicas in let turns = history s _events.now in
        (d n : ℕ) (e : Event) → message_sent d n turns ≡ true → message_sent d n (turn s turns e) ≡ true }
    ensures replies { let s = setting _rows.now _book.now _replicas in let turns = history s _events.now in
        (d n : ℕ) (e : Event) → reply_sent d n turns ≡ true → reply_sent d n (turn s turns e) ≡ true }
    ensures effects { let s = setting _rows.now _book.now _replicas in let turns = history s _events.now in
        (d : ℕ) (l : Lane) (k : ℕ) (e : Event) → effect_pushed d l k turns ≡ true → effect_pushed d l k (turn s turns e) ≡ true }
    ensures answers { let s = setting _rows.now _book.now _replicas in let turns = history s _events.now in
        (d : ℕ) (l : Lane) (k : ℕ) (e : Event) → effect_received d l k turns ≡ true → effect_received d l k (turn s turns e) ≡ true }
{}

/// What is on a link has its content: a message is that of the book with its number, a reply and an effect are those of the machine
/// that never fails, and an answer is to a call that the machine makes.
pub fn links_carry_contents(_rows: &[Subscriber], _book: &Book, _replicas: u32, _events: &[Event])
    requires { All (IsEvent (setting _rows.now _book.now _replicas)) _events.now }
    ensures messages { let s = setting _rows.now _book.now _replicas in let turns = history s _events.now in
        (d n : ℕ) → message_sent d n turns ≡ true
        → IsSomeAnd (message_packet s turns d n) (λ message. slice_get (messages_of s d) (n - 1) ≡ Some message) }
    ensures replies { let s = setting _rows.now _book.now _replicas in let turns = history s _events.now in
        (d n : ℕ) → 1 ≤ n → reply_sent d n turns ≡ true
        → IsSomeAnd (reply_packet s turns d n) (λ reply. reply_of (entries_of s d) n ≡ Some reply) }
    ensures effects { let s = setting _rows.now _book.now _replicas in let turns = history s _events.now in
        (d : ℕ) (l : Lane) (k : ℕ) → effect_pushed d l k turns ≡ true
        → IsSomeAnd (effect_packet s turns d l k) (λ effect. slice_get (effects_of l (entries_of s d)) (k - 1) ≡ Some effect) }
    ensures answers { let s = setting _rows.now _book.now _replicas in let turns = history s _events.now in
        (d : ℕ) (l : Lane) (k : ℕ) → 1 ≤ k → effect_received d l k turns ≡ true → k ≤ pushed_count l (entries_of s d) }
{}

/// No answer arrives to a call that was not made: a read of an answer is never told that calls are missing.
pub fn answers_are_of_made_calls(
    _rows: &[Subscriber],
    _book: &Book,
    _replicas: u32,
    _events: &[Event],
)
    requires { All (IsEvent (setting _rows.now _book.now _replicas)) _events.now }
    ensures { let s = setting _rows.now _book.now _replicas in let turns = history s _events.now in
        (r d : ℕ) (l : Lane) (k m : ℕ) → Holds d (TheAnswer l k) (hand r turns)
        → answer s turns (happens.Read r) ≢ told.Ahead m }
{}

/// Each answer to a read comes exactly where it is said to, by what arrived, how many messages were taken, the call whose answer is
/// awaited, and the version: no other is the answer there.
pub fn reads_are_told(_rows: &[Subscriber], _book: &Book, _replicas: u32, _events: &[Event])
    requires { All (IsEvent (setting _rows.now _book.now _replicas)) _events.now }
    ensures messages { let s = setting _rows.now _book.now _replicas in let turns = history s _events.now in
        (r d n : ℕ) (a : EventAnswer) → r ≤ _replicas → Holds d (TheMessage n) (hand r turns)
        → (answer s turns (happens.Read r) ≡ a)
        ↔ IsToldOfMessage (taken_count (journal s d turns)) (awaited_call (journal s d turns)) (commits d turns) n a }
    ensures answers { let s = setting _rows.now _book.now _replicas in let turns = history s _events.now in
        (r d : ℕ) (l : Lane) (k : ℕ) (a : EventAnswer) → r ≤ _replicas → Holds d (TheAnswer l k) (hand r turns)
        → (answer s turns (happens.Read r) ≡ a) ↔ IsToldOfAnswer (awaited_call (journal s d turns)) (commits d turns) l k a }
{}

/// What a replica holds came with its origin, the last event that brought it anything, and is there until the replica stops or its
/// write comes to something, committed or stale; without an origin it holds nothing. It has a step, at the version that was read,
/// exactly where the last read behind the origin was told so.
pub fn hands_have_origins(_rows: &[Subscriber], _book: &Book, _replicas: u32, _events: &[Event])
    ensures held { let s = setting _rows.now _book.now _replicas in let turns = history s _events.now in
        (r d : ℕ) (what : Arrival) → Holds d what (hand r turns) ↔ IsFrom r d what turns }
    ensures ready { let s = setting _rows.now _book.now _replicas in let turns = history s _events.now in
        (r d v : ℕ) (what : Arrival) → (hand r turns ≡ Ready d what v) ↔ IsReadySince r d what v turns }
    ensures nothing { let s = setting _rows.now _book.now _replicas in let turns = history s _events.now in
        (r : ℕ) → (hand r turns ≡ Nothing) ↔ ((d : ℕ) (what : Arrival) → IsFrom r d what turns → ⊥) }
    ensures ended { let s = setting _rows.now _book.now _replicas in let turns = history s _events.now in
        (r : ℕ) (e : Event) → ends r (e, answer s turns e) ≡ true → hand r (turn s turns e) ≡ Nothing }
{}
