//! As many lists of counts as may be, and more.
ghost use Rattle.std.specs.Prelude.{◌≤◌};

use md_counts::{Counts, CountsRefusal};
use std::alloc::Global;

// How many lists there are, and how many bidders have the last kind in the first list and the first kind in the last.
fn ends(alloc: Global, bidders: u32, kinds: u32) -> Result<(u32, u32, u32), CountsRefusal>
    requires some_bidder { 1 ≤ bidders }
    requires few_bidders { bidders ≤ 12 }
    requires some_kind { 1 ≤ kinds }
    requires few_kinds { kinds ≤ 12 }
{
    let counts = Counts::new(alloc, bidders, kinds)?;
    let lists = counts.len();
    if lists == 0 {
        return Ok((0, 0, 0));
    }
    Ok((
        lists,
        counts.count(0, kinds - 1),
        counts.count(lists - 1, 0),
    ))
}

// 17 over 6 is 12376, and 17 over 8 is 24310.
#[test]
fn as_many_lists_as_may_be(rt: HostRuntime) {
    assert!(rt; matches!(ends(rt.alloc(), 11, 7), Ok((12_376, 11, 11))));
    assert!(rt; matches!(ends(rt.alloc(), 6, 12), Ok((12_376, 6, 6))));
    assert!(rt; matches!(ends(rt.alloc(), 9, 9), Err(CountsRefusal::TooManyCounts)));
}
