//! The greatest flow, path by path, and the set that is over by most.
ghost use Rattle.std.specs.Prelude.{◌≡◌, ℕ, ◌+◌, ◌-◌, ◌*◌, ◌^◌, ◌<◌, ◌≤◌, ◌⊎◌, pos, ◌+ℤ◌, ◌*ℤ◌, ◌<ℤ◌, ◌≤ℤ◌, true, false, length, Ok, None, Some, IfOk, List, ◌==◌};
ghost use Rattle.md_math.specs.Sets.{member};
ghost use Rattle.md_flow.specs.Network.{IsNet, node_count, demand_count};
ghost use Rattle.md_flow.specs.Flows.{IsPartFlow};
ghost use Rattle.md_flow.specs.Costs.{vertex_count, edge_count};
ghost use Rattle.md_flow.specs.Ends.{IsEndOf};
ghost use Rattle.md_flow.specs.Tables.{flow_of};
ghost use Rattle.md_flow.specs.Labels.{AreLabels, AreReached, AllFull, label_at, lack_at, top_of};
ghost use Rattle.md_flow.specs.Paths.{IsLevelled, IsPath, IsEnough, FitsRooms, IsBottleneck, last_of, room_left, amount_before};
ghost use Rattle.md_flow.specs.Potential.{potential};

use crate::flow::{Flow, number};
use crate::flow_end::FlowEnd;
use crate::labels::{Labels, top};
use crate::net::Net;
use crate::search::{Search, forget};
use crate::steps::Steps;
use md_num::{NoMemory, Nums};
use std::alloc::Global;
use std::marker::Brand;
use std::sync::ledger::{Blank, Ledger};

/// Finds a flow that gives each demand exactly, or the largest set of demands that is over by most what the nodes can give to it. Each change of the flow along one path is one step; where memory runs out, the steps that were taken stay.
pub fn solve<L: Ledger>(alloc: Global, net: &Net, steps: &mut Steps<L>) -> Result<FlowEnd, NoMemory>
    // Full comes with a flow that meets the net, so that no set is over; Cut with the largest set that is over by most.
    ensures end { IfOk result (IsEndOf net.now) }

    // The steps taken are at most the product of the numbers of vertices and edges, whatever comes of it.
    ensures counted { steps.old ≤ steps.new }
    ensures cost { pos (steps.new - steps.old) ≤ℤ (vertex_count net.now *ℤ edge_count net.now) }
{
    let mut flow = Flow::start(alloc, net)?;
    let labels = send(alloc, net, &mut flow, steps)?;
    conclude(alloc, net, &flow, &labels)
}

/// The same, for a caller that keeps no count of the steps.
pub fn find_end(alloc: Global, net: &Net) -> Result<FlowEnd, NoMemory>
    ensures { IfOk result (IsEndOf net.now) }
{
    end_with::<Brand>(alloc, net, Blank::new(1))
}

// The end of a net, with a count that is thrown away.
fn end_with<L: Ledger>(alloc: Global, net: &Net, blank: Blank) -> Result<FlowEnd, NoMemory>
    requires name { blank.name ≡ L.name }
    requires parts { blank.parts ≡ L.parts }
    requires some { 0 < blank.parts }
    ensures { IfOk result (IsEndOf net.now) }
{
    let mut steps = Steps::<L>::open(blank);
    solve(alloc, net, &mut steps)
}

// Changes the flow along paths until no path is left, and gives the labels that show it.
fn send<L: Ledger>(
    alloc: Global,
    net: &Net,
    flow: &mut Flow,
    steps: &mut Steps<L>,
) -> Result<Labels, NoMemory>
    requires nodes { flow.old.nodes ≡ node_count net.now }
    requires demands { flow.old.demands ≡ demand_count net.now }
    requires part { IsPartFlow net.now (flow_of flow.old) }
    ensures nodes { flow.new.nodes ≡ node_count net.now }
    ensures demands { flow.new.demands ≡ demand_count net.now }
    ensures part { IsPartFlow net.now (flow_of flow.new) }
    ensures labels { IfOk result (λ labels. AreLabels net.now (flow_of flow.new) labels.nodes.items labels.demands.items) }
    ensures reached { IfOk result (λ labels. AreReached net.now (flow_of flow.new) labels.nodes.items labels.demands.items) }
    ensures full { IfOk result (λ labels. AllFull net.now (flow_of flow.new) labels.demands.items) }
    ensures counted { steps.old ≤ steps.new }
    ensures cost { pos steps.new ≤ℤ (pos steps.old +ℤ vertex_count net.now *ℤ edge_count net.now) }
{
    let mut labels = Labels::start(alloc, net)?;
    let mut search = Search::start(alloc, net)?;
    let mut fresh = false;
    'turns: loop {
        let Some(next) = turn(alloc, net, flow, &mut labels, &mut search, fresh, steps)? else {
            return Ok(labels);
        };
        fresh = next;
    }
}

// One step along a path that the labels lead to; or, where there is none, labels anew. Answers whether the labels are new, and nothing where new labels lead to no path.
fn turn<L: Ledger>(
    alloc: Global,
    net: &Net,
    flow: &mut Flow,
    labels: &mut Labels,
    search: &mut Search,
    fresh: bool,
    steps: &mut Steps<L>,
) -> Result<Option<bool>, NoMemory>
    requires nodes { flow.old.nodes ≡ node_count net.now }
    requires demands { flow.old.demands ≡ demand_count net.now }
    requires part { IsPartFlow net.now (flow_of flow.old) }
    requires labels { AreLabels net.now (flow_of flow.old) labels.old.nodes.items labels.old.demands.items }
    requires reached { fresh ≡ true → AreReached net.now (flow_of flow.old) labels.old.nodes.items labels.old.demands.items }
    requires entries { length search.old.entries.items ≡ demand_count net.now }
    requires before { length search.old.before.items ≡ demand_count net.now }
    requires places { length search.old.places.items ≡ 144 }
    ensures nodes { flow.new.nodes ≡ node_count net.now }
    ensures demands { flow.new.demands ≡ demand_count net.now }
    ensures part { IsPartFlow net.now (flow_of flow.new) }
    ensures labels { AreLabels net.now (flow_of flow.new) labels.new.nodes.items labels.new.demands.items }
    ensures entries { length search.new.entries.items ≡ demand_count net.now }
    ensures before { length search.new.before.items ≡ demand_count net.now }
    ensures places { length search.new.places.items ≡ 144 }
    ensures counted { steps.old ≤ steps.new }
    ensures cost { (pos steps.new +ℤ potential net.now (flow_of flow.new) labels.new.nodes.items labels.new.demands.items) ≤ℤ (pos steps.old +ℤ potential net.now (flow_of flow.old) labels.old.nodes.items labels.old.demands.items) }
    ensures stepped { result ≡ Ok (Some false) → steps.new ≡ steps.old + 1 }
    ensures kept { result ≡ Ok (Some true) → steps.new ≡ steps.old }
    ensures ended { result ≡ Ok None → steps.new ≡ steps.old }
    ensures renewed { result ≡ Ok (Some true) → (fresh ≡ false) × AreReached net.now (flow_of flow.new) labels.new.nodes.items labels.new.demands.items }
    ensures done { result ≡ Ok None → AreReached net.now (flow_of flow.new) labels.new.nodes.items labels.new.demands.items × AllFull net.now (flow_of flow.new) labels.new.demands.items }
{
    match search.find(alloc, net, flow, &labels.demands, fresh)? {
        Some(path) => {
            push(net, flow, &path, steps);
            Ok(Some(false))
        }
        None => {
            if fresh {
                return Ok(None);
            }
            labels.renew(net, flow);
            forget(&mut search.places, 0);
            Ok(Some(true))
        }
    }
}

// Changes the flow along a path by as much as it takes. Labels that lead along the path stay labels, and make the potential smaller.
fn push<L: Ledger>(net: &Net, flow: &mut Flow, path: &Nums, steps: &mut Steps<L>)
    requires nodes { flow.old.nodes ≡ node_count net.now }
    requires demands { flow.old.demands ≡ demand_count net.now }
    requires net { IsNet net.now }
    requires part { IsPartFlow net.now (flow_of flow.old) }
    requires path { IsPath net.now (flow_of flow.old) path.now }
    ensures nodes { flow.new.nodes ≡ node_count net.now }
    ensures demands { flow.new.demands ≡ demand_count net.now }
    ensures part { IsPartFlow net.now (flow_of flow.new) }
    ensures labels { (nodes demands : List ℕ) → AreLabels net.now (flow_of flow.old) nodes demands → IsLevelled net.now (flow_of flow.old) demands path.now → AreLabels net.now (flow_of flow.new) nodes demands }
    ensures step { steps.new ≡ steps.old + 1 }
    ensures cost { (nodes demands : List ℕ) → AreLabels net.now (flow_of flow.old) nodes demands → IsLevelled net.now (flow_of flow.old) demands path.now → (potential net.now (flow_of flow.new) nodes demands +ℤ pos 1) ≤ℤ potential net.now (flow_of flow.old) nodes demands }
{
    let amount = bottleneck(net, flow, path);
    flow.augment(net, path, amount as i128, steps);
}

// The greatest amount that a path takes.
fn bottleneck(net: &Net, flow: &Flow, path: &Nums) -> u128
    requires nodes { flow.now.nodes ≡ node_count net.now }
    requires demands { flow.now.demands ≡ demand_count net.now }
    requires net { IsNet net.now }
    requires part { IsPartFlow net.now (flow_of flow.now) }
    requires path { IsPath net.now (flow_of flow.now) path.now }
    ensures least { IsBottleneck net.now (flow_of flow.now) path.now (pos result) }
    ensures small { result < 2 ^ 126 }
{
    let first = number(path, 0);
    let end = number(path, path.len() - 1);
    let spare = net.cap(first) - flow.sent(first);
    let lack = net.want(end) - flow.got(end);
    let most = least_room(net, flow, path, lesser(spare, lack));
    least_carried(net, flow, path, most)
}

// The lesser of a number and the least room that is left along a path.
fn least_room(net: &Net, flow: &Flow, path: &Nums, most: u128) -> u128
    requires nodes { flow.now.nodes ≡ node_count net.now }
    requires demands { flow.now.demands ≡ demand_count net.now }
    requires net { IsNet net.now }
    requires path { IsPath net.now (flow_of flow.now) path.now }
    requires some { 1 ≤ most }
    ensures some { 1 ≤ result }
    ensures most { result ≤ most }
    ensures fits { FitsRooms net.now (flow_of flow.now) path.now (pos result) }
    ensures reached { (result ≡ most) ⊎ ((j : ℕ) × (j < last_of path.now + 1) × (pos result ≡ room_left net.now (flow_of flow.now) path.now j)) }
{
    let mut least = most;
    for j in 0..path.len() / 2 {
        let node = number(path, 2 * j);
        let demand = number(path, 2 * j + 1);
        let left = net.room(node, demand) - flow.amount_at(node, demand);
        least = lesser(least, left);
    }
    least
}

// The lesser of a number and the least amount that a path takes away from.
fn least_carried(net: &Net, flow: &Flow, path: &Nums, most: u128) -> u128
    requires nodes { flow.now.nodes ≡ node_count net.now }
    requires demands { flow.now.demands ≡ demand_count net.now }
    requires net { IsNet net.now }
    requires path { IsPath net.now (flow_of flow.now) path.now }
    requires some { 1 ≤ most }
    ensures some { 1 ≤ result }
    ensures most { result ≤ most }
    ensures enough { IsEnough path.now (pos result) (flow_of flow.now) }
    ensures reached { (result ≡ most) ⊎ ((j : ℕ) × (j < last_of path.now) × (pos result ≡ amount_before (flow_of flow.now) path.now j)) }
{
    let mut least = most;
    for j in 0..path.len() / 2 - 1 {
        let carried = flow.amount_at(number(path, 2 * (j + 1)), number(path, 2 * j + 1));
        least = lesser(least, carried);
    }
    least
}

// The lesser of two numbers.
fn lesser(first: u128, second: u128) -> u128
    ensures { ((result ≡ first) × (first ≤ second)) ⊎ ((result ≡ second) × (second ≤ first)) }
{
    if first < second {
        return first;
    }
    second
}

// The end of a flow along which no path is left.
fn conclude(alloc: Global, net: &Net, flow: &Flow, labels: &Labels) -> Result<FlowEnd, NoMemory>
    requires nodes { flow.now.nodes ≡ node_count net.now }
    requires demands { flow.now.demands ≡ demand_count net.now }
    requires part { IsPartFlow net.now (flow_of flow.now) }
    requires labels { AreLabels net.now (flow_of flow.now) labels.now.nodes.items labels.now.demands.items }
    requires reached { AreReached net.now (flow_of flow.now) labels.now.nodes.items labels.now.demands.items }
    requires full { AllFull net.now (flow_of flow.now) labels.now.demands.items }
    ensures { IfOk result (IsEndOf net.now) }
{
    let amounts = flow.amounts(alloc)?;
    if first_lacking(net, flow) >= net.demands() {
        return Ok(FlowEnd::Full(amounts));
    }
    Ok(FlowEnd::Cut {
        set: unreached(net, &labels.demands),
        amounts,
    })
}

// The first demand that lacks something; past the last one where there is none.
fn first_lacking(net: &Net, flow: &Flow) -> usize
    requires nodes { flow.now.nodes ≡ node_count net.now }
    requires demands { flow.now.demands ≡ demand_count net.now }
    ensures lacks { result < demand_count net.now → pos 0 <ℤ lack_at net.now (flow_of flow.now) result }
    ensures none { demand_count net.now ≤ result → (d : ℕ) → d < demand_count net.now → lack_at net.now (flow_of flow.now) d ≤ℤ pos 0 }
{
    for demand in 0..net.demands() {
        if flow.got(demand) < net.want(demand) {
            return demand;
        }
    }
    net.demands()
}

// The set of the demands whose label is the top.
fn unreached(net: &Net, labels: &Vec<u8>) -> u32
    requires { length labels.now.items ≡ demand_count net.now }
    ensures size { result < 2 ^ demand_count net.now }
    ensures members { (d : ℕ) → d < demand_count net.now → member result d ≡ (label_at labels.now.items d == top_of net.now) }
{
    let top = top(net);
    let mut set = 0;
    for demand in 0..net.demands() {
        set = with(set, demand, labels[demand] == top);
    }
    set
}

// A set with one more place, if a test holds.
fn with(set: u32, place: usize, test: bool) -> u32
    requires place { place < 12 }
    requires set { set < 2 ^ place }
    ensures size { result < 2 ^ (place + 1) }
    ensures here { member result place ≡ test }
    ensures others { (k : ℕ) → k < place → member result k ≡ member set k }
{
    if test { set | (1u32 << place) } else { set }
}
