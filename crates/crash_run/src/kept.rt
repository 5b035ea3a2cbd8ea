//! What a disk keeps that fails.
ghost use Rattle.std.specs.Prelude.{◌≡◌, min, IfOk};
ghost use Rattle.crash_run.specs.Text.{total_of, shares_of, IsKept};

use std::alloc::{AllocError, Global};

/// What came of commits to a disk that failed, and was opened again.
#[derive(Debug, PartialEq, Eq, Drop)]
pub struct Kept {
    /// How many commits were acknowledged.
    pub acknowledged: u64,
    /// How many were found.
    pub found: u64,
    /// The version of each device then, by number.
    pub versions: Vec<u64>,
}

/// How many of the first entries are each device's, where the devices have so many.
fn shares_of(alloc: Global, counts: &[u64], first: u64) -> Result<Vec<u64>, AllocError>
    ensures { IfOk result (λ shares. shares.items ≡ shares_of first counts.now) }
{
    let mut shares = Vec::new(alloc);
    let mut left = first;
    for count in counts {
        shares.push(left.min(*count))?;
        left = left.saturating_sub(*count);
    }
    Ok(shares)
}

/// The lesser of a number and of how many entries there are, where the devices have so many.
fn lesser_of(counts: &[u64], number: u64) -> u64
    ensures { result ≡ min (total_of counts.now) number }
{
    let mut left = number;
    for count in counts {
        left = left.saturating_sub(*count);
    }
    number - left
}

impl Kept {
    /// What is kept of so many entries of each device, where so many calls of the disk pass behind those of opening.
    pub(crate) fn of(alloc: Global, counts: &[u64], after: u32) -> Result<Kept, AllocError>
        ensures { IfOk result (IsKept counts.now after) }
    {
        let calls = u64::from(after);
        let found = lesser_of(counts, (calls + 1) / 4);
        Ok(Kept {
            acknowledged: lesser_of(counts, calls / 4),
            found,
            versions: shares_of(alloc, counts, found)?,
        })
    }
}
