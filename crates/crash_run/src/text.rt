//! The text of what a disk kept.
ghost use Rattle.std.specs.Prelude.{◌≡◌, ◌++◌, length, All, Some, IfOk, OnOk, string_bytes};
ghost use Rattle.echo_base.specs.Reason.{zero_filled};
ghost use Rattle.session_store.specs.Charter.{IsShort};
ghost use Rattle.crash_run.specs.Text.{kept_line, version_line, kept_text, crash_text};

use crate::kept::Kept;
use crate::maker::AloneMaker;
use crate::runs::crash;
use device_types::{Book, Octets, Subscriber};
use echo_base::OutOfMemory;
use std::alloc::Global;
use std::fmt;
use subs_table::SubsTable;

/// Puts the line of what was acknowledged and found behind a text.
fn put_kept(text: &mut String, acknowledged: u64, found: u64) -> Result<(), OutOfMemory>
    ensures { OnOk result (string_bytes text.new ≡ string_bytes text.old ++ kept_line acknowledged found) }
{
    writeln!(text, "acknowledged {acknowledged} found {found}")
}

/// The IMSI of a device, in 15 digits.
#[derive(Clone, Copy)]
struct Digits(u64);

impl fmt::Display for Digits {
    ghost output = { λ imsi. Some (zero_filled 15 imsi.0) };

    #[tactic(auto, using(echo_base::proofs::Printed::zeros_in_front))]
    fn fmt<W: fmt::Write>(&self, f: &mut fmt::Formatter<W>) -> fmt::Result {
        let Digits(imsi) = *self;
        write!(f, "{imsi:015}")
    }
}

/// Puts the line of a device with its version behind a text.
fn put_version(text: &mut String, imsi: Digits, version: u64) -> Result<(), OutOfMemory>
    ensures { OnOk result (string_bytes text.new ≡ string_bytes text.old ++ version_line imsi.0 version) }
{
    writeln!(text, "device {imsi} version {version}")
}

/// The text of what was kept of the devices of these rows.
fn kept_text(alloc: Global, rows: &[Subscriber], kept: &Kept) -> Result<Octets, OutOfMemory>
    requires { length kept.now.versions.items ≡ length rows.now }
    ensures { IfOk result (λ text. text ≡ kept_text rows.now kept.now.acknowledged kept.now.found kept.now.versions.items) }
{
    let mut text = String::new(alloc);
    put_kept(&mut text, kept.acknowledged, kept.found)?;
    for (index, row) in rows.iter().enumerate() {
        put_version(&mut text, Digits(row.imsi), kept.versions[index])?;
    }
    Ok(Octets::from(text.into_bytes()))
}

/// What a disk keeps of the machines alone, as `crash` prints it: it passes the three calls of opening and `after` more, then one fails.
/// The entries of the devices are committed in order of number until then, or to their end, and what is left is opened again. There is
/// a line `acknowledged A found F`, and a line `device IMSI version V` for each device, by number. It fails for want of memory alone,
/// also where a disk is starved.
///
/// ```rust
/// let text = crash_text(alloc, table, &admitted.book, 18)?;
/// ```
#[tactic(auto, unfolding(crate::specs::Text::crash_text))]
pub fn crash_text(
    alloc: Global,
    table: &SubsTable,
    book: &Book,
    after: u32,
) -> Result<Octets, OutOfMemory>
    requires lines { length book.now ≡ length table.now }
    requires short { All IsShort book.now }
    ensures { IfOk result (λ text. text ≡ crash_text table.now book.now after) }
{
    let maker = AloneMaker::new(alloc, table, book)?;
    let expected = Kept::of(alloc, &maker.counts(alloc)?, after)?;
    let kept = crash(alloc, &maker, after)?;
    // Each call passes that is to pass, but where a disk is starved.
    if kept != expected {
        return Err(OutOfMemory);
    }
    kept_text(alloc, table.rows(), &kept)
}
