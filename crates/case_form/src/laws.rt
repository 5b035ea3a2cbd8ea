//! Laws of the definitions.

ghost use Rattle.std.specs.Prelude.{◌≡◌, ◌↔◌, ◌^◌, ◌<◌, ℕ, List, Some};
ghost use Rattle.device_types.specs.declared.event.Event.{Event};
ghost use Rattle.case_form.specs.Event.{event_of, IsEvent};
ghost use Rattle.case_form.specs.declared.case.TraceKind.TheVariants.{Pdu, Data};
ghost use Rattle.case_form.specs.Trace.{kind_of, IsSent, IsNotice};

/// A line is read as an event exactly where it has the words of that event, and its numbers are in their limits. So a
/// line is at most one event.
pub fn events_are_exact()
    ensures { (rows : ℕ) (line : List ℕ) (e : Event) → rows < 2 ^ 32
        → (event_of rows line ≡ Some e) ↔ IsEvent rows e line }
{}

/// A line is read as one of a trace exactly where its words are a base station and a text of one octet or more, or `data` and 15
/// decimal digits.
pub fn trace_lines_are_exact()
    ensures sent { (line : List ℕ) (station : ℕ) (text : List ℕ)
        → (kind_of line ≡ Some (Pdu station text)) ↔ IsSent station text line }
    ensures notice { (line : List ℕ) (imsi : ℕ) → (kind_of line ≡ Some (Data imsi)) ↔ IsNotice imsi line }
{}
