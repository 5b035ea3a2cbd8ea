//! Where a text goes.
ghost use Rattle.std.specs.Prelude.{◌≡◌, ◌⊎◌, ◌++◌, ℕ, List};
ghost use Rattle.echo_base.specs.Outside.{IsPut, Rose};

use device_types::Octets;
use echo_base::{Sink, Status, write_all};

/// Writes the text to the sink.
pub fn put_text<K: Sink>(out: &mut K, text: &Octets) -> Status
    ensures status { (result ≡ Status.Done) ⊎ (result ≡ Status.WriteFault) }
    ensures done { result ≡ Status.Done → IsPut (K.held out.old) text.now (K.held out.new) }
    ensures fault { result ≡ Status.WriteFault → Rose (K.faults out.old) (K.faults out.new) }
    ensures front { result ≡ Status.WriteFault → (piece rest : List ℕ) × (text.now ≡ piece ++ rest)
        × IsPut (K.held out.old) piece (K.held out.new) }
{
    match write_all(out, text.octets()) {
        Ok(()) => Status::Done,
        Err(_) => Status::WriteFault,
    }
}
