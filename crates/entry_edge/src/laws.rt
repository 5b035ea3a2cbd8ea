//! Laws of the definitions, as clauses of functions that do nothing.

ghost use Rattle.std.specs.Prelude.{◌≡◌, ◌≢◌, ◌↔◌, ◌∷◌, ◌++◌, [], ℕ, List, Some, Ok, Err};
ghost use Rattle.echo_base.specs.declared.refusal.Refusal.{Refusal};
ghost use Rattle.device_types.specs.declared.subscriber.DeviceId.{DeviceId};
ghost use Rattle.device_types.specs.declared.subscriber.Subscriber.{Subscriber};
ghost use Rattle.case_form.specs.declared.case.TraceLine.{TraceLine};
ghost use Rattle.entry_edge.specs.declared.check.Taken.{Taken};
ghost use Rattle.entry_edge.specs.Trace.{Turn, Pair, bound, taken_at, turn, and_message, messages_of, book_of, refused_of};
ghost use Rattle.entry_edge.specs.Bound.{IsBound, bound_after};

/// A pair is bound to a device exactly where an admitted INITIAL UE MESSAGE of the device opened the pair, no later admitted
/// line opened or released the pair, and no later INITIAL UE MESSAGE of the device came on another pair.
pub fn bound_is_last()
    ensures { (H : List Turn) (pair : Pair) (d : DeviceId) → (bound pair H ≡ Some d) ↔ IsBound H pair d }
{}

/// A pair is bound to at most one device, and a device to at most one pair.
pub fn bound_once()
    ensures device { (H : List Turn) (pair : Pair) (d e : DeviceId) → IsBound H pair d → IsBound H pair e → d ≡ e }
    ensures pair { (H : List Turn) (p q : Pair) (d : DeviceId) → IsBound H p d → IsBound H q d → p ≡ q }
{}

/// A refused line stands behind the refused ones, adds no message and binds nothing.
pub fn line_refused()
    ensures refused { (rows : List Subscriber) (H : List Turn) (line : TraceLine) (e : Refusal) → taken_at rows H line ≡ Err e
        → refused_of (turn rows H line) ≡ refused_of H ++ record { line = line.line; refusal = e } ∷ [] }
    ensures book { (rows : List Subscriber) (H : List Turn) (line : TraceLine) (e : Refusal) → taken_at rows H line ≡ Err e
        → (devices : ℕ) → book_of devices (turn rows H line) ≡ book_of devices H }
    ensures bound { (rows : List Subscriber) (H : List Turn) (line : TraceLine) (e : Refusal) → taken_at rows H line ≡ Err e
        → (pair : Pair) → bound pair (turn rows H line) ≡ bound pair H }
{}

/// An admitted line is the next message of its device. An INITIAL UE MESSAGE frees the pair that the device had, and binds
/// its own in place of what it was bound to; a UE CONTEXT RELEASE COMPLETE frees its pair; any other, and a notice, leaves all as it
/// was.
pub fn line_admitted()
    ensures refused { (rows : List Subscriber) (H : List Turn) (line : TraceLine) (t : Taken) → taken_at rows H line ≡ Ok t
        → refused_of (turn rows H line) ≡ refused_of H }
    ensures next { (rows : List Subscriber) (H : List Turn) (line : TraceLine) (t : Taken) → taken_at rows H line ≡ Ok t
        → messages_of t.device.0 (turn rows H line) ≡ and_message (messages_of t.device.0 H) t }
    ensures others { (rows : List Subscriber) (H : List Turn) (line : TraceLine) (t : Taken) → taken_at rows H line ≡ Ok t
        → (d : ℕ) → d ≢ t.device.0 → messages_of d (turn rows H line) ≡ messages_of d H }
    ensures bound { (rows : List Subscriber) (H : List Turn) (line : TraceLine) (t : Taken) → taken_at rows H line ≡ Ok t
        → (pair : Pair) → bound pair (turn rows H line) ≡ bound_after t pair (bound pair H) }
{}
