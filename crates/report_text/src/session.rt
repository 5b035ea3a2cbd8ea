//! The lines of a session.

ghost use Rattle.std.specs.Prelude.{◌≡◌, ◌++◌, Some, IfOk, OnOk, string_bytes};
ghost use Rattle.report_text.specs.Lines.{ended, hex_filled};
ghost use Rattle.report_text.specs.Session.{stage_name, link_text, bearer_name, session_front, session_back, session_line, second_text, session_text};

use device_types::{Bearer, Link, Octets, Second, Session, Stage};
use echo_base::OutOfMemory;
use std::alloc::Global;
use std::fmt;

/// The name of a stage.
fn stage_name(stage: Stage) -> &'static str
    ensures { result.now ≡ stage_name stage }
{
    match stage {
        Stage::Detached => "detached",
        Stage::AwaitVectors => "await-vectors",
        Stage::Authenticating => "authenticating",
        Stage::Securing => "securing",
        Stage::AwaitLocation => "await-location",
        Stage::AwaitCreate => "await-create",
        Stage::Accepting => "accepting",
        Stage::AcceptingContext => "accepting-context",
        Stage::AcceptingDone => "accepting-done",
        Stage::AwaitModify => "await-modify",
        Stage::Connecting => "connecting",
        Stage::Connected => "connected",
        Stage::AwaitRelease => "await-release",
        Stage::Releasing => "releasing",
        Stage::Idle => "idle",
        Stage::AwaitDelete => "await-delete",
        Stage::AwaitSecond => "await-second",
        Stage::AwaitSecondModify => "await-second-modify",
    }
}

/// The name of what a bearer is.
fn bearer_name(bearer: Bearer) -> &'static str
    ensures { result.now ≡ bearer_name bearer }
{
    match bearer {
        Bearer::None => "none",
        Bearer::Made => "made",
        Bearer::Active => "active",
    }
}

/// A PLMN identity, in six hexadecimal digits.
#[derive(Clone, Copy)]
struct Plmn(u32);

impl fmt::Display for Plmn {
    ghost output = { λ plmn. Some (hex_filled 6 plmn.0) };

    #[tactic(auto, using(crate::proofs::Filled::six_digits))]
    fn fmt<W: fmt::Write>(&self, f: &mut fmt::Formatter<W>) -> fmt::Result {
        let plmn = self.0;
        write!(f, "{plmn:06x}")
    }
}

/// A link, as it is printed.
#[derive(Clone, Copy)]
struct LinkText(Link);

impl fmt::Display for LinkText {
    ghost output = { λ link. Some (link_text link.0) };

    fn fmt<W: fmt::Write>(&self, f: &mut fmt::Formatter<W>) -> fmt::Result {
        match self.0 {
            Link::Off => write!(f, "off"),
            Link::On { station, enb } => write!(f, "{station}/{enb}"),
        }
    }
}

/// The front of the line: the stage, and where the device is.
#[derive(Clone, Copy)]
struct SessionFront<'a>(&'a Session);

impl fmt::Display for SessionFront<'_> {
    ghost output = { λ line. Some (session_front line.0.now) };

    fn fmt<W: fmt::Write>(&self, f: &mut fmt::Formatter<W>) -> fmt::Result {
        let session = self.0;
        let stage = stage_name(session.stage);
        let link = LinkText(session.link);
        write!(f, "session {stage} link {link}")
    }
}

/// The back of the line: the area, the bearer and the radio.
#[derive(Clone, Copy)]
struct SessionBack<'a>(&'a Session);

impl fmt::Display for SessionBack<'_> {
    ghost output = { λ line. Some (session_back line.0.now) };

    fn fmt<W: fmt::Write>(&self, f: &mut fmt::Formatter<W>) -> fmt::Result {
        let session = self.0;
        let bearer = bearer_name(session.bearer);
        let plmn = Plmn(session.plmn);
        let tac = session.tac;
        let radio = session.radio;
        write!(f, "area {plmn} {tac} bearer {bearer} radio {radio}")
    }
}

/// The line of a session, without its end.
#[derive(Clone, Copy)]
pub struct SessionLine<'a>(pub &'a Session);

impl fmt::Display for SessionLine<'_> {
    ghost output = { λ line. Some (session_line line.0.now) };

    fn fmt<W: fmt::Write>(&self, f: &mut fmt::Formatter<W>) -> fmt::Result {
        let front = SessionFront(self.0);
        let back = SessionBack(self.0);
        write!(f, "{front} {back}")
    }
}

/// Puts the line of a session behind a text.
fn put_session(text: &mut String, line: SessionLine) -> Result<(), OutOfMemory>
    ensures { OnOk result (string_bytes text.new ≡ string_bytes text.old ++ ended (session_line line.entry.0.now)) }
{
    writeln!(text, "{line}")
}

/// Puts the line of a second connection behind a text, where there is one.
fn put_second(text: &mut String, second: Second) -> Result<(), OutOfMemory>
    ensures { OnOk result (string_bytes text.new ≡ string_bytes text.old ++ second_text second) }
{
    match second {
        Second::None => Ok(()),
        Second::Made | Second::Radio | Second::Accepted => writeln!(text, "second made"),
        Second::Active => writeln!(text, "second active"),
    }
}

/// Puts the line of a session, and of its second connection where it has one, behind a text.
#[tactic(auto, unfolding(crate::specs::Session::session_text))]
pub(crate) fn put_session_lines(text: &mut String, session: &Session) -> Result<(), OutOfMemory>
    ensures { OnOk result (string_bytes text.new ≡ string_bytes text.old ++ session_text session.now) }
{
    put_session(text, SessionLine(session))?;
    put_second(text, session.second)
}

/// The line of a session, with the LF that ends it: `session STAGE link LINK area PLMN TAC bearer BEARER radio N`, where N is the count of
/// octets of the radio capability.
pub fn session_line(alloc: Global, session: &Session) -> Result<Octets, OutOfMemory>
    ensures { IfOk result (λ line. line ≡ ended (session_line session.now)) }
{
    let mut text = String::new(alloc);
    put_session(&mut text, SessionLine(session))?;
    Ok(Octets::from(text.into_bytes()))
}
