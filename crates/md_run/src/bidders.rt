//! How many bidders report a value, and which of them has a number.
ghost use Rattle.std.specs.Prelude.{◌≡◌, ◌≤◌, ◌<◌, ◌↔◌, ◌==◌, if◌then◌else◌, pos, ◌≤ℤ◌, ◌<ℤ◌, IsTrue, MatchOption, IfOk, length};
ghost use Rattle.md_counts.specs.Weights.{count_in, counts_of};
ghost use Rattle.md_run.specs.OfMasses.{IsNumbered};

use md_num::NoMemory;
use std::alloc::Global;

/// How many bidders report each value.
pub(crate) fn counts_of(alloc: Global, reports: &[u8], kinds: u32) -> Result<Vec<u32>, NoMemory>
    requires few { length reports.now ≤ 12 }
    ensures { IfOk result (λ counts. counts.items ≡ counts_of kinds reports.now) }
{
    let mut counts = Vec::new(alloc);
    for kind in 0..kinds {
        counts.push(count_of(reports, kind))?;
    }
    Ok(counts)
}

/// The bidder with a number among those that report a value, counted from 0.
pub(crate) fn bidder_of(reports: &[u8], kind: u32, number: i128) -> Option<u32>
    requires few { length reports.now ≤ 12 }
    ensures { MatchOption result (¬ ((pos 0 ≤ℤ number) × (number <ℤ pos (count_in kind reports.now)))) (IsNumbered reports.now kind number) }
{
    match place_below(number, count_of(reports, kind)) {
        Some(place) => numbered(reports, kind, place),
        None => None,
    }
}

/// How many bidders report a value.
pub(crate) fn count_of(reports: &[u8], kind: u32) -> u32
    requires few { length reports.now ≤ 12 }
    ensures { result ≡ count_in kind reports.now }
{
    let mut count = 0;
    for report in reports {
        count += one_for(*report, kind);
    }
    count
}

// A number as one of those from 0 to one below the end.
fn place_below(number: i128, end: u32) -> Option<u32>
    ensures { MatchOption result (¬ ((pos 0 ≤ℤ number) × (number <ℤ pos end))) (λ place. (pos place ≡ number) × (place < end)) }
{
    if 0 <= number && number < i128::from(end) {
        Some(number as u32)
    } else {
        None
    }
}

// The bidder before which so many others report the value.
fn numbered(reports: &[u8], kind: u32, number: u32) -> Option<u32>
    requires few { length reports.now ≤ 12 }
    ensures { MatchOption result (count_in kind reports.now ≤ number) (IsNumbered reports.now kind (pos number)) }
{
    let mut others = 0;
    for bidder in 0..reports.len() {
        if is_next(reports[bidder], kind, others, number) {
            return Some(bidder as u32);
        }
        others += one_for(reports[bidder], kind);
    }
    None
}

// Whether a report is the value, and as many others were as there should be.
fn is_next(report: u8, kind: u32, others: u32, number: u32) -> bool
    ensures { IsTrue result ↔ ((report ≡ kind) × (others ≡ number)) }
{
    u32::from(report) == kind && others == number
}

// 1 where a report is the value, and 0 elsewhere.
fn one_for(report: u8, kind: u32) -> u32
    ensures value { result ≡ (if report == kind then 1 else 0) }
    ensures small { result ≤ 1 }
{
    if u32::from(report) == kind { 1 } else { 0 }
}
