//! Where the case text of a command comes from.
ghost use Rattle.std.specs.Prelude.{◌≡◌, ◌≢◌, ◌⊎◌, ◌+◌, ◌≤◌, ℕ, List, length, option_map, Some, Err, IsSome, IfSome, IfOk, IfErr};
ghost use Rattle.echo_base.specs.Outside.{IsTakenBy, Rose};
ghost use Rattle.top_calls.specs.Case.{most_octets, case_made, case_by, IsSmall, IsCase};

use device_types::Octets;
use echo_base::{ReadAll, Reason, Source, Status, read_all};
use std::alloc::Global;
use trace_gen::make_case;

/// The most octets of a case text.
const MOST_OCTETS: usize = 67_108_864;

/// The numbers that a case is made of.
#[derive(Clone, Copy, Debug, PartialEq, Eq)]
pub struct MadeCase {
    /// The number that it is made from.
    pub number: u32,
    /// How many devices it has.
    pub devices: u32,
    /// How many rounds it has behind the first.
    pub rounds: u32,
}

/// The case that is made of these numbers.
fn made_text(alloc: Global, made: MadeCase) -> Result<Octets, Status>
    requires { IsSmall made }
    ensures text { IfOk result (λ octets. octets ≡ case_made made) }
    ensures memory { IfErr result (λ status. status ≡ Status.OutOfMemory) }
{
    match make_case(alloc, made.number, made.devices, made.rounds) {
        Ok(text) => Ok(text),
        Err(_) => Err(Status::OutOfMemory),
    }
}

/// The case text of a command: the case that it makes, or, where it makes none, all that the source has. Else the status: `ReadFault`
/// where the source failed, `CaseRefused` with the number 6 (TooLong) and the line 0 where it had more than 67,108,864 octets.
pub fn case_text<S: Source>(
    alloc: Global,
    made: Option<MadeCase>,
    input: &mut S,
) -> Result<Octets, Status>
    requires { IfSome made IsSmall }
    ensures case { IfOk result (λ octets. IsCase (option_map case_made made) (S.left input.old) octets (S.left input.new)) }
    ensures wanted { (octets : List ℕ) → case_by (option_map case_made made) (S.left input.old) ≡ Some octets → IfOk result (λ other. other ≡ octets) }
    ensures fits { (octets : List ℕ) → case_by (option_map case_made made) (S.left input.old) ≡ Some octets → result ≢ Err (Status.CaseRefused 6 0) }
    ensures fault { result ≡ Err Status.ReadFault → Rose (S.faults input.old) (S.faults input.new) }
    ensures too_long { result ≡ Err (Status.CaseRefused 6 0)
        → IsTakenBy (λ n. n ≡ most_octets + 1) (S.left input.old) (S.left input.new) }
    ensures short { result ≢ Err (Status.CaseRefused 6 0)
        → IsTakenBy (λ n. n ≤ most_octets) (S.left input.old) (S.left input.new) }
    ensures makes { IsSome made → input.new ≡ input.old }
    ensures no_fault { IsSome made → (result ≢ Err Status.ReadFault) × (result ≢ Err (Status.CaseRefused 6 0)) }
    ensures status { IfErr result (λ status. (status ≡ Status.ReadFault) ⊎ (status ≡ Status.CaseRefused 6 0) ⊎ (status ≡ Status.OutOfMemory)) }
{
    if let Some(made) = made {
        return made_text(alloc, made);
    }
    match read_all(alloc, input, MOST_OCTETS) {
        Ok(octets) => Ok(Octets::from(octets)),
        Err(ReadAll::ReadFault) => Err(Status::ReadFault),
        Err(ReadAll::TooLong) => Err(Status::CaseRefused {
            number: Reason::TooLong.number(),
            line: 0,
        }),
        Err(ReadAll::OutOfMemory) => Err(Status::OutOfMemory),
    }
}
