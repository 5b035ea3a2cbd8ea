//! The messages that are read, by their commands (3GPP TS 29.272, 7.2.2).

ghost use Rattle.std.specs.Prelude.{◌≡◌, ℕ, List};
ghost use Rattle.dia_wire.specs.Commands.{code_of, command_of, asking, granting};
ghost use Rattle.dia_wire.specs.Messages.{RejectsBy};
ghost use Rattle.dia_wire.specs.Written.{IsCommand};

/// A command: a request and its answer.
#[derive(Clone, Copy)]
pub enum Command {
    /// Authentication-Information.
    Authentication,
    /// Update-Location.
    Location,
    /// Purge-UE.
    Purge,
}

/// A kind of message.
#[derive(Clone, Copy)]
pub enum Kind {
    /// Authentication-Information-Request.
    AskVectors,
    /// Update-Location-Request.
    AskLocation,
    /// Purge-UE-Request.
    AskPurge,
    /// Authentication-Information-Answer that succeeds.
    Vectors,
    /// Update-Location-Answer that succeeds.
    Located,
    /// Purge-UE-Answer that succeeds.
    Purged,
    /// An answer to that command that does not succeed.
    Rejected(Command),
}

/// The code of a command.
pub fn code_of(command: Command) -> u32
    ensures code { result ≡ code_of command }
    ensures written { IsCommand result }
{
    match command {
        Command::Authentication => 318,
        Command::Location => 316,
        Command::Purge => 321,
    }
}

/// The command of that code.
pub fn command_of(code: u32) -> Option<Command>
    ensures { result ≡ command_of code }
{
    match code {
        318 => Some(Command::Authentication),
        316 => Some(Command::Location),
        321 => Some(Command::Purge),
        _ => None,
    }
}

/// The request of a command.
pub fn asking(command: Command) -> Kind
    ensures kind { result ≡ asking command }
    ensures rejects { (end : ℕ) (octets : List ℕ) → RejectsBy result end octets }
{
    match command {
        Command::Authentication => Kind::AskVectors,
        Command::Location => Kind::AskLocation,
        Command::Purge => Kind::AskPurge,
    }
}

/// The answer to a command that succeeds.
pub fn granting(command: Command) -> Kind
    ensures kind { result ≡ granting command }
    ensures rejects { (end : ℕ) (octets : List ℕ) → RejectsBy result end octets }
{
    match command {
        Command::Authentication => Kind::Vectors,
        Command::Location => Kind::Located,
        Command::Purge => Kind::Purged,
    }
}
