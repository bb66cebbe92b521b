//! The sets of one kind each.
ghost use Rattle.std.specs.Prelude.{◌≡◌, ◌≤◌, ◌<◌, ◌^◌, IfOk};
ghost use Rattle.md_lp.specs.Cuts.{AreCuts, singles_of};

use crate::Sets;
use md_num::NoMemory;
use std::alloc::Global;

/// The sets of one kind each, in their order. Nothing but running out of memory is an error.
pub fn singles(alloc: Global, kinds: u32) -> Result<Sets, NoMemory>
    requires { kinds ≤ 12 }
    ensures value { IfOk result (λ cuts. cuts ≡ singles_of kinds) }
    ensures cuts { IfOk result (AreCuts kinds) }
{
    let mut cuts = Sets::new(alloc);
    for kind in 0..kinds {
        cuts.push(single(kind))?;
    }
    Ok(cuts)
}

// The set of one kind.
fn single(kind: u32) -> u32
    requires { kind < 12 }
    ensures { result ≡ 2 ^ kind }
{
    1u32 << kind
}
