//! Labels of nodes and demands, which tell how far each is from a node with something left to give.
ghost use Rattle.std.specs.Prelude.{◌≡◌, ◌≢◌, ℕ, ◌+◌, ◌<◌, ◌≤◌, ◌<ℤ◌, ◌⊎◌, true, false, length, replicate, IfOk};
ghost use Rattle.md_flow.specs.Network.{node_count, demand_count, room_of};
ghost use Rattle.md_flow.specs.Tables.{flow_of};
ghost use Rattle.md_flow.specs.Labels.{AreLabels, AreRaised, AreReached, IsNodeLabel, IsDemandLabel, label_at};

use crate::flow::Flow;
use crate::net::Net;
use md_num::NoMemory;
use std::alloc::Global;

/// Labels of nodes and demands, by which the next paths are found.
#[derive(Drop)]
pub struct Labels {
    pub nodes: Vec<u8>,
    pub demands: Vec<u8>,
}

impl Labels {
    // All labels are 0.
    pub fn start(alloc: Global, net: &Net) -> Result<Labels, NoMemory>
        ensures nodes { IfOk result (λ labels. labels.nodes.items ≡ replicate (node_count net.now) 0) }
        ensures demands { IfOk result (λ labels. labels.demands.items ≡ replicate (demand_count net.now) 0) }
    {
        Ok(Labels {
            nodes: zeros(alloc, net.nodes())?,
            demands: zeros(alloc, net.demands())?,
        })
    }

    // Raises the labels as far as they go: then each one below the top is reached.
    pub fn renew(&mut self, net: &Net, flow: &Flow)
        requires nodes { flow.now.nodes ≡ node_count net.now }
        requires demands { flow.now.demands ≡ demand_count net.now }
        requires labels { AreLabels net.now (flow_of flow.now) self.old.nodes.items self.old.demands.items }
        ensures labels { AreLabels net.now (flow_of flow.now) self.new.nodes.items self.new.demands.items }
        ensures reached { AreReached net.now (flow_of flow.now) self.new.nodes.items self.new.demands.items }
        ensures raised { AreRaised net.now self.old.nodes.items self.new.nodes.items self.old.demands.items self.new.demands.items }
    {
        'rounds: loop {
            raise_nodes(net, flow, &self.demands, &mut self.nodes);
            if !raise_demands(net, flow, &self.nodes, &mut self.demands) {
                break 'rounds;
            }
        }
    }
}

// So many zeros.
fn zeros(alloc: Global, count: usize) -> Result<Vec<u8>, NoMemory>
    ensures { IfOk result (λ list. list.items ≡ replicate count 0) }
{
    Ok(vec![in alloc; 0u8; count]?)
}

// Gives each node its greatest label by those of the demands.
fn raise_nodes(net: &Net, flow: &Flow, demands: &Vec<u8>, nodes: &mut Vec<u8>)
    requires nodes { flow.now.nodes ≡ node_count net.now }
    requires demands { flow.now.demands ≡ demand_count net.now }
    requires one_node { length nodes.old.items ≡ node_count net.now }
    requires one_demand { length demands.now.items ≡ demand_count net.now }
    ensures length { length nodes.new.items ≡ length nodes.old.items }
    ensures labels { (u : ℕ) → u < node_count net.now → IsNodeLabel net.now (flow_of flow.now) demands.now.items u (label_at nodes.new.items u) }
{
    for node in 0..net.nodes() {
        nodes[node] = node_label(net, flow, demands, node);
    }
}

// The greatest label of a node: 0 where something is left of its cap, else one more than the least label of the demands to which it gives something.
fn node_label(net: &Net, flow: &Flow, demands: &Vec<u8>, node: usize) -> u8
    requires nodes { flow.now.nodes ≡ node_count net.now }
    requires demands { flow.now.demands ≡ demand_count net.now }
    requires one_demand { length demands.now.items ≡ demand_count net.now }
    requires node { node < node_count net.now }
    ensures { IsNodeLabel net.now (flow_of flow.now) demands.now.items node result }
{
    if flow.sent(node) < net.cap(node) {
        return 0;
    }
    let mut label = top(net);
    for demand in 0..net.demands() {
        let amount = flow.amount_at(node, demand);
        label = least_after(label, amount, demands[demand]);
    }
    label
}

// The label of what no path reaches: one more than there are demands.
pub fn top(net: &Net) -> u8
    ensures value { result ≡ demand_count net.now + 1 }
    ensures small { result ≤ 13 }
{
    net.demands() as u8 + 1
}

// A label, or one more than that of a demand to which something is given, where this is less.
fn least_after(label: u8, amount: u128, demand: u8) -> u8
    ensures { ((result ≡ label) × (0 < amount → label ≤ demand + 1)) ⊎ ((result ≡ demand + 1) × (0 < amount) × (demand < label)) }
{
    if demand < label && amount > 0 {
        return demand + 1;
    }
    label
}

// Gives each demand its greatest label by those of the nodes, and says whether one has changed.
fn raise_demands(net: &Net, flow: &Flow, nodes: &Vec<u8>, demands: &mut Vec<u8>) -> bool
    requires nodes { flow.now.nodes ≡ node_count net.now }
    requires demands { flow.now.demands ≡ demand_count net.now }
    requires one_node { length nodes.now.items ≡ node_count net.now }
    requires one_demand { length demands.old.items ≡ demand_count net.now }
    ensures length { length demands.new.items ≡ length demands.old.items }
    ensures labels { (d : ℕ) → d < demand_count net.now → IsDemandLabel net.now (flow_of flow.now) nodes.now.items d (label_at demands.new.items d) }
    ensures changed { result ≡ true → (d : ℕ) × (d < demand_count net.now) × (label_at demands.new.items d ≢ label_at demands.old.items d) }
    ensures same { result ≡ false → (d : ℕ) → d < demand_count net.now → label_at demands.new.items d ≡ label_at demands.old.items d }
{
    let mut changed = false;
    for demand in 0..net.demands() {
        let label = demand_label(net, flow, nodes, demand);
        if demands[demand] != label {
            changed = true;
        }
        demands[demand] = label;
    }
    changed
}

// The greatest label of a demand: the least one of the nodes that have room for it.
fn demand_label(net: &Net, flow: &Flow, nodes: &Vec<u8>, demand: usize) -> u8
    requires nodes { flow.now.nodes ≡ node_count net.now }
    requires demands { flow.now.demands ≡ demand_count net.now }
    requires one_node { length nodes.now.items ≡ node_count net.now }
    requires demand { demand < demand_count net.now }
    ensures { IsDemandLabel net.now (flow_of flow.now) nodes.now.items demand result }
{
    let mut label = top(net);
    for node in 0..net.nodes() {
        label = least_at(net, flow, node, demand, label, nodes[node]);
    }
    label
}

// A label, or that of a node, where this is less and the node has room for a demand.
fn least_at(net: &Net, flow: &Flow, node: usize, demand: usize, label: u8, other: u8) -> u8
    requires nodes { flow.now.nodes ≡ node_count net.now }
    requires demands { flow.now.demands ≡ demand_count net.now }
    requires node { node < node_count net.now }
    requires demand { demand < demand_count net.now }
    ensures { ((result ≡ label) × (flow_of flow.now node demand <ℤ room_of net.now node demand → label ≤ other)) ⊎ ((result ≡ other) × (flow_of flow.now node demand <ℤ room_of net.now node demand) × (other < label)) }
{
    if other < label && flow.has_room(net, node, demand) {
        return other;
    }
    label
}
