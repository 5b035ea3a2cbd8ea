//! The messages that lines of a trace are shown as.

ghost use Rattle.std.specs.Prelude.{◌≡◌, IfOk};
ghost use Rattle.report_text.specs.Show.{show_text, show_gtp_text, show_dia_text};

use crate::show::{TraceMessage, shown_text};
use case_form::TraceLine;
use device_types::Octets;
use dia_wire::{Dia, read_dia, write_dia};
use echo_base::{Bad, OutOfMemory};
use gtp2_wire::{Gtp, read_gtp, write_gtp};
use s1ap_messages::{Pdu, message_name, read_pdu, write_pdu};
use std::alloc::Global;

impl TraceMessage for Pdu {
    ghost use Rattle.s1ap_pdu.specs.Run.{IsRight};
    ghost use Rattle.report_text.specs.Show.{pdus};

    ghost protocol = { pdus };

    ghost is_right = { IsRight };

    fn read(alloc: Global, octets: &[u8]) -> Result<Pdu, Bad> {
        read_pdu(alloc, octets)
    }

    fn put_name(&self, text: &mut String) -> Result<(), OutOfMemory> {
        text.push_str(message_name(self.kind()))
    }

    fn write(&self, alloc: Global) -> Result<Octets, OutOfMemory> {
        write_pdu(alloc, self)
    }
}

impl TraceMessage for Gtp {
    ghost use Rattle.gtp2_wire.specs.Written.{IsGtp};
    ghost use Rattle.report_text.specs.Show.{gtps};

    ghost protocol = { gtps };

    ghost is_right = { IsGtp };

    fn read(alloc: Global, octets: &[u8]) -> Result<Gtp, Bad> {
        read_gtp(alloc, octets)
    }

    fn put_name(&self, text: &mut String) -> Result<(), OutOfMemory> {
        write!(text, "gtp {}", self.body.message_type())
    }

    fn write(&self, alloc: Global) -> Result<Octets, OutOfMemory> {
        write_gtp(alloc, self)
    }
}

impl TraceMessage for Dia {
    ghost use Rattle.dia_wire.specs.Written.{IsDia};
    ghost use Rattle.report_text.specs.Show.{dias};

    ghost protocol = { dias };

    ghost is_right = { IsDia };

    fn read(alloc: Global, octets: &[u8]) -> Result<Dia, Bad> {
        read_dia(alloc, octets)
    }

    fn put_name(&self, text: &mut String) -> Result<(), OutOfMemory> {
        write!(text, "dia {}", self.body.command())
    }

    fn write(&self, alloc: Global) -> Result<Octets, OutOfMemory> {
        write_dia(alloc, self)
    }
}

/// What the lines of a trace are: for each that is no notice a line `line LINE NAME HEX`, with the message as it is written, or
/// `line LINE refused ` and the refusal, which is BadHex or that of `read_pdu`.
pub fn show_text(alloc: Global, trace: &[TraceLine]) -> Result<Octets, OutOfMemory>
    ensures { IfOk result (λ text. text ≡ show_text trace.now) }
{
    shown_text::<Pdu>(alloc, trace)
}

/// What the lines of a trace are as messages of the gateway: for each that is no notice a line `line LINE gtp TYPE HEX`, with the type and
/// the message as it is written, or `line LINE refused ` and the refusal, which is BadHex or that of `read_gtp`.
pub fn show_gtp_text(alloc: Global, trace: &[TraceLine]) -> Result<Octets, OutOfMemory>
    ensures { IfOk result (λ text. text ≡ show_gtp_text trace.now) }
{
    shown_text::<Gtp>(alloc, trace)
}

/// What the lines of a trace are as messages of the subscriber server: for each that is no notice a line `line LINE dia COMMAND HEX`, with
/// the command and the message as it is written, or `line LINE refused ` and the refusal, which is BadHex or that of `read_dia`.
pub fn show_dia_text(alloc: Global, trace: &[TraceLine]) -> Result<Octets, OutOfMemory>
    ensures { IfOk result (λ text. text ≡ show_dia_text trace.now) }
{
    shown_text::<Dia>(alloc, trace)
}
