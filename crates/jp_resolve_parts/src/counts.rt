ghost use Rattle.std.specs.Prelude.{◌≡◌, Ok};
ghost use Rattle.jp_resolution.specs.Answers.{Gives};
ghost use Rattle.jp_resolution.specs.Counting as spec;

use jp_base::{RelNo, SubNo};
use jp_resolution::{Counts, ResolveError};

/// Nothing counted.
pub fn no_counts() -> Counts
    ensures { result ≡ spec.none }
{
    Counts {
        entries: 0,
        sublinks: 0,
    }
}

/// What one entry counts.
pub fn one_entry() -> Counts
    ensures { result ≡ spec.one_entry }
{
    Counts {
        entries: 1,
        sublinks: 0,
    }
}

/// What one sublink counts.
pub fn one_sublink() -> Counts
    ensures { result ≡ spec.one_sublink }
{
    Counts {
        entries: 0,
        sublinks: 1,
    }
}

/// Both together. A statement has fewer tokens than 32 bits can count, so a sum that doesn't fit can't come; it counts as
/// want of memory.
pub fn both(left: Counts, right: Counts) -> Result<Counts, ResolveError>
    ensures { Gives (Ok (spec.both left right)) result }
{
    let Some(entries) = left.entries.checked_add(right.entries) else {
        return Err(ResolveError::Memory);
    };
    let Some(sublinks) = left.sublinks.checked_add(right.sublinks) else {
        return Err(ResolveError::Memory);
    };
    Ok(Counts { entries, sublinks })
}

/// The number of the entry that begins behind so many. Entries are counted before they are numbered, so one past 8 bits
/// can't come; it counts as want of memory.
pub fn next_relation(before: Counts) -> Result<RelNo, ResolveError>
    ensures { Gives (Ok (spec.next_relation before)) result }
{
    if before.entries > 255 {
        return Err(ResolveError::Memory);
    }
    Ok(before.entries as u8)
}

/// The number of the sublink that begins behind so many, likewise.
pub fn next_sublink(before: Counts) -> Result<SubNo, ResolveError>
    ensures { Gives (Ok (spec.next_sublink before)) result }
{
    if before.sublinks > 254 {
        return Err(ResolveError::Memory);
    }
    Ok(before.sublinks as u8 + 1)
}
