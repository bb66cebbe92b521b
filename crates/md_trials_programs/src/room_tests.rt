//! Small nets with rooms between source nodes and demands, with flows and worst sets.
ghost use Rattle.std.specs.Prelude.{◌≡◌, ◌*◌, ◌≤◌, length};

use crate::lists::{MOST, numbers};
use md_flow::{FlowEnd, Net, find_end};
use md_num::NoMemory;
use std::alloc::Global;
use std::test::Fail;

fn net_of(alloc: Global, caps: &[i128], wants: &[i128], rooms: &[i128]) -> Result<Net, NoMemory>
    requires one_room { length rooms.now ≡ length caps.now * length wants.now }
    requires few_nodes { length caps.now ≤ 12 }
    requires few_demands { length wants.now ≤ 12 }
{
    let caps = numbers(alloc, caps)?;
    let wants = numbers(alloc, wants)?;
    let rooms = numbers(alloc, rooms)?;
    Ok(Net::with_rooms(caps, wants, rooms))
}

// A net, and the worst set or the amounts that are carried, by node and then by demand.
struct Case {
    caps: &'static [i128],
    wants: &'static [i128],
    rooms: &'static [i128],
    set: Option<u32>,
    amounts: &'static [i128],
}

static CASES: [Case; 12] = [
    // The cap is 5, but the room is 3: over by 2.
    Case {
        caps: &[5],
        wants: &[5],
        rooms: &[3],
        set: Some(1),
        amounts: &[],
    },
    // The rooms are 4, but the cap is 2: the first demand is not over, the second demand just not, and both are over by 1.
    Case {
        caps: &[2],
        wants: &[1, 2],
        rooms: &[2, 2],
        set: Some(3),
        amounts: &[],
    },
    // Caps of 8 are enough for all 8, but the rooms for the first demand are 4: it is over by 1. The second demand is not, since the
    // rooms for it are 4.
    Case {
        caps: &[4, 4],
        wants: &[5, 3],
        rooms: &[2, 2, 2, 2],
        set: Some(1),
        amounts: &[],
    },
    // The first demand is over by 2. The second demand gets what its node has and no more: with it the set is over by 2 as well.
    Case {
        caps: &[1, 1],
        wants: &[3, 1],
        rooms: &[1, 0, 0, 1],
        set: Some(3),
        amounts: &[],
    },
    // Where that node has more, the larger set is over by 1 only.
    Case {
        caps: &[1, 2],
        wants: &[3, 1],
        rooms: &[1, 0, 0, 2],
        set: Some(1),
        amounts: &[],
    },
    // All caps and rooms are used up.
    Case {
        caps: &[3, 3],
        wants: &[3, 3],
        rooms: &[2, 1, 1, 2],
        set: None,
        amounts: &[2, 1, 1, 2],
    },
    // The first node is the only one for the second demand, so that the second node gives 1 to the first demand.
    Case {
        caps: &[2, 1],
        wants: &[2, 1],
        rooms: &[2, 1, 1, 0],
        set: None,
        amounts: &[1, 1, 1, 0],
    },
    // No node and a demand of 1, and nothing at all.
    Case {
        caps: &[],
        wants: &[1],
        rooms: &[],
        set: Some(1),
        amounts: &[],
    },
    Case {
        caps: &[],
        wants: &[],
        rooms: &[],
        set: None,
        amounts: &[],
    },
    // As many nodes with as great caps as may be here, of which the last one alone has room for the demand.
    Case {
        caps: &[
            MOST, MOST, MOST, MOST, MOST, MOST, MOST, MOST, MOST, MOST, MOST, MOST,
        ],
        wants: &[MOST],
        rooms: &[0, 0, 0, 0, 0, 0, 0, 0, 0, 0, 0, MOST],
        set: None,
        amounts: &[0, 0, 0, 0, 0, 0, 0, 0, 0, 0, 0, MOST],
    },
    // As many and as great demands, of which one node can meet one: over by the other eleven.
    Case {
        caps: &[MOST],
        wants: &[
            MOST, MOST, MOST, MOST, MOST, MOST, MOST, MOST, MOST, MOST, MOST, MOST,
        ],
        rooms: &[
            MOST, MOST, MOST, MOST, MOST, MOST, MOST, MOST, MOST, MOST, MOST, MOST,
        ],
        set: Some(4095),
        amounts: &[],
    },
    // The rooms for the first demand lack 1, and the caps are just enough for both.
    Case {
        caps: &[MOST, MOST],
        wants: &[MOST, MOST],
        rooms: &[MOST - 2, MOST, 1, MOST],
        set: Some(1),
        amounts: &[],
    },
];

fn is_end(case: &Case, end: &FlowEnd) -> bool {
    match end {
        FlowEnd::Full(amounts) => case.set.is_none() && amounts.as_slice() == case.amounts,
        FlowEnd::Cut { set, amounts: _ } => case.set == Some(*set),
    }
}

fn ends_so(alloc: Global, case: &Case) -> Result<bool, NoMemory> {
    if case.caps.len() > 12 || case.wants.len() > 12 {
        return Ok(false);
    }
    if case.rooms.len() != case.caps.len() * case.wants.len() {
        return Ok(false);
    }
    let net = net_of(alloc, case.caps, case.wants, case.rooms)?;
    let end = find_end(alloc, &net)?;
    Ok(is_end(case, &end))
}

#[test]
fn rooms_have_flows_or_worst_sets(rt: HostRuntime) -> Result<(), Fail> {
    for case in &CASES {
        let (caps, wants, rooms) = (case.caps, case.wants, case.rooms);
        assert!(rt;
            ends_so(rt.alloc(), case)?,
            "at {caps:?} {wants:?} {rooms:?}"
        );
    }
    Ok(())
}
