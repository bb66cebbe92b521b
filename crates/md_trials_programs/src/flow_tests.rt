//! Small nets of source nodes that touch demands, with flows and worst sets. Each flow here is the only one, or is found along the
//! shortest paths in the order of the demands.
ghost use Rattle.std.specs.Prelude.{◌≡◌, ℕ, ◌^◌, ◌<◌, ◌≤◌, length, slice_index, IfOk};

use crate::lists::{MOST, numbers};
use md_flow::{FlowEnd, Net, Steps, solve};
use md_lp::Sets;
use md_num::NoMemory;
use std::alloc::Global;
use std::marker::Brand;
use std::sync::ledger::{Blank, Ledger};
use std::test::Fail;

// A list of sets with so many places.
fn sets(alloc: Global, values: &[u32], places: usize) -> Result<Sets, NoMemory>
    requires { places ≤ 12 }
    ensures length { IfOk result (λ list. length list ≡ length values.now) }
    ensures below { IfOk result (λ list. (k : ℕ) → k < length list → slice_index list k < 2 ^ places) }
{
    let mut list = Sets::new(alloc);
    for value in values {
        list.push(*value % (1u32 << places))?;
    }
    Ok(list)
}

fn net_of(alloc: Global, caps: &[i128], demands: &[i128], touches: &[u32]) -> Result<Net, NoMemory>
    requires one_set { length touches.now ≡ length caps.now }
    requires few_nodes { length caps.now ≤ 12 }
    requires few_demands { length demands.now ≤ 12 }
{
    let caps = numbers(alloc, caps)?;
    let touches = sets(alloc, touches, demands.len())?;
    let demands = numbers(alloc, demands)?;
    Ok(Net::new(caps, demands, touches))
}

// What comes of a net; the count of the steps is not kept.
fn end_of<L: Ledger>(alloc: Global, net: &Net, blank: Blank) -> Result<FlowEnd, NoMemory>
    requires name { blank.name ≡ L.name }
    requires parts { blank.parts ≡ L.parts }
    requires some { 0 < blank.parts }
{
    let mut steps = Steps::<L>::open(blank);
    solve(alloc, net, &mut steps)
}

// A net, the worst set where it has one, and the amounts that are carried, by node and then by demand.
struct Case {
    caps: &'static [i128],
    demands: &'static [i128],
    touches: &'static [u32],
    set: Option<u32>,
    amounts: &'static [i128],
}

static CASES: [Case; 12] = [
    // One node with cap 5 touches a demand of 5.
    Case {
        caps: &[5],
        demands: &[5],
        touches: &[1],
        set: None,
        amounts: &[5],
    },
    // Two nodes with cap 1 touch the first demand alone, which is 2.
    Case {
        caps: &[1, 1],
        demands: &[2, 0],
        touches: &[1, 1],
        set: None,
        amounts: &[1, 0, 1, 0],
    },
    // It is 3: over by 1, and the second demand adds nothing.
    Case {
        caps: &[1, 1],
        demands: &[3, 0],
        touches: &[1, 1],
        set: Some(3),
        amounts: &[1, 0, 1, 0],
    },
    // No node: a demand of 1, and one of 0.
    Case {
        caps: &[],
        demands: &[1],
        touches: &[],
        set: Some(1),
        amounts: &[],
    },
    Case {
        caps: &[],
        demands: &[0],
        touches: &[],
        set: None,
        amounts: &[],
    },
    // No demand.
    Case {
        caps: &[4],
        demands: &[],
        touches: &[0],
        set: None,
        amounts: &[],
    },
    // Caps of 0, from which nothing comes.
    Case {
        caps: &[0, 0],
        demands: &[0, 2],
        touches: &[3, 2],
        set: Some(3),
        amounts: &[0, 0, 0, 0],
    },
    // The first node touches both demands and gives to the first demand first; the second demand is met by a path that takes this
    // back.
    Case {
        caps: &[1, 1],
        demands: &[1, 1],
        touches: &[3, 1],
        set: None,
        amounts: &[0, 1, 1, 0],
    },
    // The first demand is over by 2; the second demand has room, and is no part of the set.
    Case {
        caps: &[1, 5],
        demands: &[3, 2],
        touches: &[1, 2],
        set: Some(1),
        amounts: &[1, 0, 0, 2],
    },
    // As many nodes with as great caps as may be here, of which the last one alone touches the demand.
    Case {
        caps: &[
            MOST, MOST, MOST, MOST, MOST, MOST, MOST, MOST, MOST, MOST, MOST, MOST,
        ],
        demands: &[MOST],
        touches: &[0, 0, 0, 0, 0, 0, 0, 0, 0, 0, 0, 1],
        set: None,
        amounts: &[0, 0, 0, 0, 0, 0, 0, 0, 0, 0, 0, MOST],
    },
    // As many and as great demands, of which one node can meet one: over by the other eleven.
    Case {
        caps: &[MOST],
        demands: &[
            MOST, MOST, MOST, MOST, MOST, MOST, MOST, MOST, MOST, MOST, MOST, MOST,
        ],
        touches: &[4095],
        set: Some(4095),
        amounts: &[MOST, 0, 0, 0, 0, 0, 0, 0, 0, 0, 0, 0],
    },
    // What is lacking is 1 of three times the greatest number.
    Case {
        caps: &[MOST, MOST, MOST - 1],
        demands: &[MOST, MOST, MOST],
        touches: &[1, 3, 7],
        set: Some(7),
        amounts: &[MOST, 0, 0, 0, MOST, 0, 0, 0, MOST - 1],
    },
];

fn is_end(case: &Case, end: &FlowEnd) -> bool {
    match end {
        FlowEnd::Full(amounts) => case.set.is_none() && amounts.as_slice() == case.amounts,
        FlowEnd::Cut { set, amounts } => {
            case.set == Some(*set) && amounts.as_slice() == case.amounts
        }
    }
}

fn ends_so(alloc: Global, case: &Case) -> Result<bool, NoMemory> {
    if case.touches.len() != case.caps.len() {
        return Ok(false);
    }
    if case.caps.len() > 12 || case.demands.len() > 12 {
        return Ok(false);
    }
    let net = net_of(alloc, case.caps, case.demands, case.touches)?;
    let end = end_of::<Brand>(alloc, &net, Blank::new(1))?;
    Ok(is_end(case, &end))
}

#[test]
fn nets_have_flows_or_worst_sets(rt: HostRuntime) -> Result<(), Fail> {
    for case in &CASES {
        let (caps, demands, touches) = (case.caps, case.demands, case.touches);
        assert!(rt;
            ends_so(rt.alloc(), case)?,
            "at {caps:?} {demands:?} {touches:?}"
        );
    }
    Ok(())
}
