//! Flows through a net: what each node gives to each demand.
ghost use Rattle.std.specs.Prelude.{◌≡◌, ℕ, ◌+◌, ◌-◌, ◌*◌, ◌/◌, ◌^◌, ◌<◌, ◌≤◌, pos, ◌+ℤ◌, ◌<ℤ◌, ◌≤ℤ◌, neg_ℤ, ◌↔◌, IsTrue, unsigned_abs, length, replicate, IfOk, OnOk};
ghost use Rattle.md_math.specs.Lists.{number_at};
ghost use Rattle.md_flow.specs.Network.{IsNet, node_count, demand_count, cap_of, want_of, room_of};
ghost use Rattle.md_flow.specs.Flows.{given_by, got_by};
ghost use Rattle.md_flow.specs.Paths.{IsRoute, IsEnough, IsShifted, node_at, demand_at, last_of};
ghost use Rattle.md_flow.specs.Tables.{cell_of, flow_of, IsGrown};

use crate::net::{Net, place};
use crate::steps::Steps;
use md_num::{NoMemory, Nums};
use std::alloc::Global;
use std::marker::Model;
use std::sync::ledger::Ledger;

/// How much each source node gives to each demand.
#[derive(Drop)]
pub struct Flow {
    // by source node, and then by demand
    amounts: Vec<u128>,
    // what each node gives in all
    sent: Vec<u128>,
    // what each demand gets in all
    got: Vec<u128>,
}

// A flow is seen as its sizes and amounts.
impl Model for Flow {
    ghost use Rattle.std.specs.Prelude.{length};
    ghost use Rattle.md_flow.specs.Tables.{Table, AreKept};

    ghost Value = { Table };

    ghost view = { λ flow. record { nodes = length flow.sent.items; demands = length flow.got.items; amounts = flow.amounts.items } };

    ghost invariant = { λ flow. AreKept flow.amounts.items flow.sent.items flow.got.items };
}

impl Flow {
    /// The flow of this net in which all amounts are 0.
    pub fn start(alloc: Global, net: &Net) -> Result<Flow, NoMemory>
        ensures net { IsNet net.now }
        ensures nodes { IfOk result (λ flow. flow.nodes ≡ node_count net.now) }
        ensures demands { IfOk result (λ flow. flow.demands ≡ demand_count net.now) }
        ensures zero { IfOk result (λ flow. (u d : ℕ) → flow_of flow u d ≡ pos 0) }
    {
        Ok(Flow {
            amounts: zeros(alloc, cell_count(net.nodes(), net.demands()))?,
            sent: zeros(alloc, net.nodes())?,
            got: zeros(alloc, net.demands())?,
        })
    }

    /// How much a node gives to a demand.
    pub fn amount(&self, node: u32, demand: u32) -> i128
        requires node { node < self.now.nodes }
        requires demand { demand < self.now.demands }
        ensures { result ≡ flow_of self.now node demand }
    {
        self.amount_at(node as usize, demand as usize) as i128
    }

    // The same, as a number without a sign.
    pub(crate) fn amount_at(&self, node: usize, demand: usize) -> u128
        requires node { node < self.now.nodes }
        requires demand { demand < self.now.demands }
        ensures value { pos result ≡ flow_of self.now node demand }
        ensures size { result < 2 ^ 126 }
    {
        self.amounts[place(node, self.got.len(), demand)]
    }

    // Whether a node may give more to a demand.
    pub(crate) fn has_room(&self, net: &Net, node: usize, demand: usize) -> bool
        requires nodes { self.now.nodes ≡ node_count net.now }
        requires demands { self.now.demands ≡ demand_count net.now }
        requires node { node < node_count net.now }
        requires demand { demand < demand_count net.now }
        ensures { IsTrue result ↔ flow_of self.now node demand <ℤ room_of net.now node demand }
    {
        self.amount_at(node, demand) < net.room(node, demand)
    }

    // What a node gives in all.
    pub(crate) fn sent(&self, node: usize) -> u128
        requires { node < self.now.nodes }
        ensures { pos result ≡ given_by self.now.demands (flow_of self.now) node }
    {
        self.sent[node]
    }

    // What a demand gets in all.
    pub(crate) fn got(&self, demand: usize) -> u128
        requires { demand < self.now.demands }
        ensures { pos result ≡ got_by self.now.nodes (flow_of self.now) demand }
    {
        self.got[demand]
    }

    // All amounts, by node, and then by demand.
    pub(crate) fn amounts(&self, alloc: Global) -> Result<Nums, NoMemory>
        ensures length { IfOk result (λ amounts. length amounts ≡ self.now.nodes * self.now.demands) }
        ensures at { IfOk result (λ amounts. (u d : ℕ) → u < self.now.nodes → d < self.now.demands → number_at amounts (u * self.now.demands + d) ≡ flow_of self.now u d) }
    {
        let mut amounts = Nums::new(alloc);
        for node in 0..self.sent.len() {
            self.push_row(&mut amounts, node)?;
        }
        Ok(amounts)
    }

    // Appends the amounts of a node.
    fn push_row(&self, amounts: &mut Nums, node: usize) -> Result<(), NoMemory>
        requires node { node < self.now.nodes }
        requires before { length amounts.old ≡ node * self.now.demands }
        ensures length { OnOk result (length amounts.new ≡ (node + 1) * self.now.demands) }
        ensures kept { OnOk result ((k : ℕ) → k < length amounts.old → number_at amounts.new k ≡ number_at amounts.old k) }
        ensures at { OnOk result ((d : ℕ) → d < self.now.demands → number_at amounts.new (node * self.now.demands + d) ≡ flow_of self.now node d) }
    {
        for demand in 0..self.got.len() {
            amounts.push(self.amount_at(node, demand) as i128)?;
        }
        Ok(())
    }

    /// Changes the flow along a path, which lists a source node and a demand in turn: the amount is added for each demand with the node before it, and taken away for each with the node after it. This is one step, and takes no memory.
    pub fn augment<L: Ledger>(&mut self, net: &Net, path: &Nums, amount: i128, steps: &mut Steps<L>)
        requires nodes { self.old.nodes ≡ node_count net.now }
        requires demands { self.old.demands ≡ demand_count net.now }
        requires route { IsRoute (node_count net.now) (demand_count net.now) path.now }
        requires some { pos 1 ≤ℤ amount }
        requires enough { IsEnough path.now amount (flow_of self.old) }
        requires cap { (given_by self.old.demands (flow_of self.old) (node_at path.now 0) +ℤ amount) ≤ℤ cap_of net.now (node_at path.now 0) }
        requires want { (got_by self.old.nodes (flow_of self.old) (demand_at path.now (last_of path.now)) +ℤ amount) ≤ℤ want_of net.now (demand_at path.now (last_of path.now)) }
        ensures nodes { self.new.nodes ≡ self.old.nodes }
        ensures demands { self.new.demands ≡ self.old.demands }

        // Nothing else changes.
        ensures amounts { IsShifted self.old.nodes self.old.demands (last_of path.now) (node_at path.now) (demand_at path.now) amount (flow_of self.old) (flow_of self.new) }
        ensures step { steps.new ≡ steps.old + 1 }
    {
        let added = amount.unsigned_abs();
        let demands = net.demands();
        take_along(&mut self.amounts, net.nodes(), demands, path, added);
        add_along(&mut self.amounts, net.nodes(), demands, path, added);
        self.sent[number(path, 0)] += added;
        self.got[number(path, path.len() - 1)] += added;
        steps.spend();
    }
}

// So many zeros.
fn zeros(alloc: Global, count: usize) -> Result<Vec<u128>, NoMemory>
    ensures { IfOk result (λ list. list.items ≡ replicate count 0) }
{
    Ok(vec![in alloc; 0u128; count]?)
}

// How many amounts there are.
fn cell_count(nodes: usize, demands: usize) -> usize
    requires few_nodes { nodes < 2 ^ 32 }
    requires few_demands { demands ≤ 12 }
    ensures { result ≡ nodes * demands }
{
    nodes * demands
}

// The number at a place of a path.
pub(crate) fn number(path: &Nums, at: usize) -> usize
    requires at { at < length path.now }
    requires nonneg { pos 0 ≤ℤ number_at path.now at }
    requires small { unsigned_abs (number_at path.now at) < 2 ^ 32 }
    ensures { result ≡ unsigned_abs (number_at path.now at) }
{
    path.get(at).unsigned_abs() as usize
}

// Adds an amount for each demand of a path with the node before it.
fn add_along(amounts: &mut Vec<u128>, nodes: usize, demands: usize, path: &Nums, amount: u128)
    requires few_nodes { nodes < 2 ^ 32 }
    requires few_demands { demands ≤ 12 }
    requires one_each { length amounts.old.items ≡ nodes * demands }
    requires route { IsRoute nodes demands path.now }
    requires amount { amount < 2 ^ 126 }
    requires small { (j : ℕ) → j ≤ last_of path.now → cell_of demands amounts.old.items (node_at path.now j) (demand_at path.now j) ≤ℤ pos (2 ^ 126) }
    ensures { IsGrown nodes demands (last_of path.now + 1) (node_at path.now) (demand_at path.now) (pos amount) amounts.old.items amounts.new.items }
{
    for j in 0..path.len() / 2 {
        let at = place(number(path, 2 * j), demands, number(path, 2 * j + 1));
        amounts[at] += amount;
    }
}

// Takes an amount away for each demand of a path with the node after it.
fn take_along(amounts: &mut Vec<u128>, nodes: usize, demands: usize, path: &Nums, amount: u128)
    requires few_nodes { nodes < 2 ^ 32 }
    requires few_demands { demands ≤ 12 }
    requires one_each { length amounts.old.items ≡ nodes * demands }
    requires route { IsRoute nodes demands path.now }
    requires enough { IsEnough path.now (pos amount) (cell_of demands amounts.old.items) }
    ensures { IsGrown nodes demands (last_of path.now) (λ j. node_at path.now (j + 1)) (demand_at path.now) (neg_ℤ (pos amount)) amounts.old.items amounts.new.items }
{
    for j in 0..path.len() / 2 - 1 {
        let at = place(number(path, 2 * (j + 1)), demands, number(path, 2 * j + 1));
        amounts[at] -= amount;
    }
}
