//! The search for a path along labels.
ghost use Rattle.std.specs.Prelude.{◌≡◌, ℕ, ◌+◌, ◌*◌, ◌<◌, ◌≤◌, ℤ, pos, ◌<ℤ◌, ◌≤ℤ◌, ◌↔◌, IsTrue, true, false, ◌∷◌, [], ◌++◌, length, Ok, None, IfOk, IfSome, OnOk};
ghost use Rattle.md_flow.specs.Network.{IsNet, node_count, demand_count, room_of};
ghost use Rattle.md_flow.specs.Tables.{flow_of};
ghost use Rattle.md_flow.specs.Labels.{AreLinked, AllFull, label_at, spare_at, lack_at, top_of};
ghost use Rattle.md_flow.specs.Paths.{IsLevelled, IsTrail};
ghost use Rattle.md_flow.specs.Search.{AreEntries, AreKnown, EntersFrom, entry_at};

use crate::flow::Flow;
use crate::net::Net;
use md_num::{NoMemory, Nums};
use std::alloc::Global;

/// What a search for a path knows, by demand.
#[derive(Drop)]
pub struct Search {
    // the node by which a demand is entered; past the last node where none is known
    pub entries: Vec<usize>,
    // the demand before it
    pub before: Vec<usize>,
    // for two demands, where to go on among the nodes: before it there is none under the labels at hand
    pub places: Vec<usize>,
}

impl Search {
    // What a search begins with.
    pub fn start(alloc: Global, net: &Net) -> Result<Search, NoMemory>
        ensures entries { IfOk result (λ search. length search.entries.items ≡ demand_count net.now) }
        ensures before { IfOk result (λ search. length search.before.items ≡ demand_count net.now) }
        ensures places { IfOk result (λ search. length search.places.items ≡ 144) }
    {
        Ok(Search {
            entries: vec![in alloc; 0usize; net.demands()]?,
            before: vec![in alloc; 0usize; net.demands()]?,
            places: vec![in alloc; 0usize; 144]?,
        })
    }

    // Finds a path along the labels, if it comes upon one. A fresh search looks at all nodes.
    pub fn find(
        &mut self,
        alloc: Global,
        net: &Net,
        flow: &Flow,
        labels: &Vec<u8>,
        fresh: bool,
    ) -> Result<Option<Nums>, NoMemory>
        requires nodes { flow.now.nodes ≡ node_count net.now }
        requires demands { flow.now.demands ≡ demand_count net.now }
        requires labels { length labels.now.items ≡ demand_count net.now }
        requires entries { length self.old.entries.items ≡ demand_count net.now }
        requires before { length self.old.before.items ≡ demand_count net.now }
        requires places { length self.old.places.items ≡ 144 }
        ensures entries { length self.new.entries.items ≡ demand_count net.now }
        ensures before { length self.new.before.items ≡ demand_count net.now }
        ensures places { length self.new.places.items ≡ 144 }
        ensures net { IsNet net.now }
        ensures found { IfOk result (λ path. IfSome path (IsLevelled net.now (flow_of flow.now) labels.now.items)) }
        ensures none { result ≡ Ok None → fresh ≡ true → AreLinked net.now (flow_of flow.now) labels.now.items → AllFull net.now (flow_of flow.now) labels.now.items }
    {
        forget(&mut self.entries, net.nodes());
        for level in 0..net.demands() + 1 {
            enter_level(self, net, flow, labels, level, fresh);
        }
        let end = lacking(net, flow, &self.entries);
        if end >= net.demands() {
            return Ok(None);
        }
        let mut path = Nums::new(alloc);
        trace(&mut path, net, flow, labels, self, end)?;
        Ok(Some(path))
    }
}

// Makes all demands unknown.
pub fn forget(entries: &mut Vec<usize>, none: usize)
    ensures length { length entries.new.items ≡ length entries.old.items }
    ensures all { (d : ℕ) → d < length entries.old.items → entry_at entries.new.items d ≡ none }
{
    for demand in 0..entries.len() {
        entries[demand] = none;
    }
}

// Enters the demands with this label.
fn enter_level(
    search: &mut Search,
    net: &Net,
    flow: &Flow,
    labels: &Vec<u8>,
    level: usize,
    fresh: bool,
)
    requires nodes { flow.now.nodes ≡ node_count net.now }
    requires demands { flow.now.demands ≡ demand_count net.now }
    requires labels { length labels.now.items ≡ demand_count net.now }
    requires places { length search.old.places.items ≡ 144 }
    requires entries { AreEntries net.now (flow_of flow.now) labels.now.items search.old.entries.items search.old.before.items }
    ensures places { length search.new.places.items ≡ 144 }
    ensures entries { AreEntries net.now (flow_of flow.now) labels.now.items search.new.entries.items search.new.before.items }
    ensures known { fresh ≡ true → AreLinked net.now (flow_of flow.now) labels.now.items → AreKnown net.now labels.now.items search.old.entries.items level → AreKnown net.now labels.now.items search.new.entries.items (level + 1) }
{
    for demand in 0..net.demands() {
        if labels[demand] as usize == level {
            enter(search, net, flow, labels, demand, fresh);
        }
    }
}

// Looks for an entry to a demand.
fn enter(search: &mut Search, net: &Net, flow: &Flow, labels: &Vec<u8>, demand: usize, fresh: bool)
    requires nodes { flow.now.nodes ≡ node_count net.now }
    requires demands { flow.now.demands ≡ demand_count net.now }
    requires labels { length labels.now.items ≡ demand_count net.now }
    requires places { length search.old.places.items ≡ 144 }
    requires demand { demand < demand_count net.now }
    requires entries { AreEntries net.now (flow_of flow.now) labels.now.items search.old.entries.items search.old.before.items }
    ensures places { length search.new.places.items ≡ 144 }
    ensures entries { AreEntries net.now (flow_of flow.now) labels.now.items search.new.entries.items search.new.before.items }
    ensures kept { (d : ℕ) → d < demand_count net.now → entry_at search.old.entries.items d < node_count net.now → entry_at search.new.entries.items d < node_count net.now }
    ensures known { fresh ≡ true → AreLinked net.now (flow_of flow.now) labels.now.items → AreKnown net.now labels.now.items search.old.entries.items (label_at labels.now.items demand) → label_at labels.now.items demand < top_of net.now → entry_at search.new.entries.items demand < node_count net.now }
{
    if labels[demand] == 0 {
        enter_first(search, net, flow, labels, demand, fresh);
    } else {
        enter_after(search, net, flow, labels, demand, fresh);
    }
}

// Looks for a node with something left of its cap to enter a demand with label 0 by.
fn enter_first(
    search: &mut Search,
    net: &Net,
    flow: &Flow,
    labels: &Vec<u8>,
    demand: usize,
    fresh: bool,
)
    requires nodes { flow.now.nodes ≡ node_count net.now }
    requires demands { flow.now.demands ≡ demand_count net.now }
    requires places { length search.old.places.items ≡ 144 }
    requires demand { demand < demand_count net.now }
    requires label { label_at labels.now.items demand ≡ 0 }
    requires entries { AreEntries net.now (flow_of flow.now) labels.now.items search.old.entries.items search.old.before.items }
    ensures places { length search.new.places.items ≡ 144 }
    ensures entries { AreEntries net.now (flow_of flow.now) labels.now.items search.new.entries.items search.new.before.items }
    ensures kept { (d : ℕ) → d < demand_count net.now → entry_at search.old.entries.items d < node_count net.now → entry_at search.new.entries.items d < node_count net.now }
    ensures known { fresh ≡ true → AreLinked net.now (flow_of flow.now) labels.now.items → entry_at search.new.entries.items demand < node_count net.now }
{
    let nodes = net.nodes();
    let place = 13 * demand;
    let from = first_place(&search.places, place, fresh);
    let node = spare_node(net, flow, demand, from);
    search.places[place] = node;
    if node < nodes {
        search.entries[demand] = node;
    }
}

// Looks for a known demand, with the label before, to enter a demand from.
fn enter_after(
    search: &mut Search,
    net: &Net,
    flow: &Flow,
    labels: &Vec<u8>,
    demand: usize,
    fresh: bool,
)
    requires nodes { flow.now.nodes ≡ node_count net.now }
    requires demands { flow.now.demands ≡ demand_count net.now }
    requires labels { length labels.now.items ≡ demand_count net.now }
    requires places { length search.old.places.items ≡ 144 }
    requires demand { demand < demand_count net.now }
    requires label { 0 < label_at labels.now.items demand }
    requires entries { AreEntries net.now (flow_of flow.now) labels.now.items search.old.entries.items search.old.before.items }
    ensures places { length search.new.places.items ≡ 144 }
    ensures entries { AreEntries net.now (flow_of flow.now) labels.now.items search.new.entries.items search.new.before.items }
    ensures kept { (d : ℕ) → d < demand_count net.now → entry_at search.old.entries.items d < node_count net.now → entry_at search.new.entries.items d < node_count net.now }
    ensures known { fresh ≡ true → AreLinked net.now (flow_of flow.now) labels.now.items → AreKnown net.now labels.now.items search.old.entries.items (label_at labels.now.items demand) → label_at labels.now.items demand < top_of net.now → entry_at search.new.entries.items demand < node_count net.now }
{
    for before in 0..net.demands() {
        if try_from(search, net, flow, labels, before, demand, fresh) {
            return;
        }
    }
}

// Enters a demand from another one, where this is known and has the label before.
fn try_from(
    search: &mut Search,
    net: &Net,
    flow: &Flow,
    labels: &Vec<u8>,
    before: usize,
    demand: usize,
    fresh: bool,
) -> bool
    requires nodes { flow.now.nodes ≡ node_count net.now }
    requires demands { flow.now.demands ≡ demand_count net.now }
    requires labels { length labels.now.items ≡ demand_count net.now }
    requires places { length search.old.places.items ≡ 144 }
    requires entries { length search.old.entries.items ≡ demand_count net.now }
    requires before { length search.old.before.items ≡ demand_count net.now }
    requires demand { demand < demand_count net.now }
    requires other { before < demand_count net.now }
    ensures places { length search.new.places.items ≡ 144 }
    ensures level { result ≡ true → label_at labels.now.items demand ≡ label_at labels.now.items before + 1 }
    ensures known { result ≡ true → entry_at search.old.entries.items before < node_count net.now }
    ensures found { result ≡ true → EntersFrom net.now (flow_of flow.now) before demand search.old.entries.items search.new.entries.items search.old.before.items search.new.before.items }
    ensures entries { result ≡ false → search.new.entries.items ≡ search.old.entries.items }
    ensures before { result ≡ false → search.new.before.items ≡ search.old.before.items }
    ensures none { result ≡ false → fresh ≡ true → label_at labels.now.items demand ≡ label_at labels.now.items before + 1 → entry_at search.old.entries.items before < node_count net.now → (u : ℕ) → u < node_count net.now → flow_of flow.now u demand <ℤ room_of net.now u demand → flow_of flow.now u before ≤ℤ pos 0 }
{
    if !is_before(labels[before], labels[demand]) {
        return false;
    }
    if search.entries[before] >= net.nodes() {
        return false;
    }
    enter_from(search, net, flow, before, demand, fresh)
}

// Whether a label comes right before another.
fn is_before(first: u8, second: u8) -> bool
    ensures { IsTrue result ↔ (second ≡ first + 1) }
{
    first < second && first + 1 == second
}

// Looks for a node that has room for a demand and gives something to the one before.
fn enter_from(
    search: &mut Search,
    net: &Net,
    flow: &Flow,
    before: usize,
    demand: usize,
    fresh: bool,
) -> bool
    requires nodes { flow.now.nodes ≡ node_count net.now }
    requires demands { flow.now.demands ≡ demand_count net.now }
    requires places { length search.old.places.items ≡ 144 }
    requires entries { length search.old.entries.items ≡ demand_count net.now }
    requires before { length search.old.before.items ≡ demand_count net.now }
    requires demand { demand < demand_count net.now }
    requires other { before < demand_count net.now }
    ensures places { length search.new.places.items ≡ 144 }
    ensures found { result ≡ true → EntersFrom net.now (flow_of flow.now) before demand search.old.entries.items search.new.entries.items search.old.before.items search.new.before.items }
    ensures entries { result ≡ false → search.new.entries.items ≡ search.old.entries.items }
    ensures before { result ≡ false → search.new.before.items ≡ search.old.before.items }
    ensures none { result ≡ false → fresh ≡ true → (u : ℕ) → u < node_count net.now → flow_of flow.now u demand <ℤ room_of net.now u demand → flow_of flow.now u before ≤ℤ pos 0 }
{
    let nodes = net.nodes();
    let place = 12 * before + demand;
    let from = first_place(&search.places, place, fresh);
    let node = carrier(net, flow, before, demand, from);
    search.places[place] = node;
    if node >= nodes {
        return false;
    }
    search.entries[demand] = node;
    search.before[demand] = before;
    true
}

// Where to begin among the nodes.
fn first_place(places: &Vec<usize>, at: usize, fresh: bool) -> usize
    requires { at < length places.now.items }
    ensures { fresh ≡ true → result ≡ 0 }
{
    if fresh { 0 } else { places[at] }
}

// The first node from a place on with something left of its cap and room for a demand.
fn spare_node(net: &Net, flow: &Flow, demand: usize, from: usize) -> usize
    requires nodes { flow.now.nodes ≡ node_count net.now }
    requires demands { flow.now.demands ≡ demand_count net.now }
    requires demand { demand < demand_count net.now }
    ensures room { result < node_count net.now → flow_of flow.now result demand <ℤ room_of net.now result demand }
    ensures spare { result < node_count net.now → pos 0 <ℤ spare_at net.now (flow_of flow.now) result }
    ensures none { node_count net.now ≤ result → (u : ℕ) → from ≤ u → u < node_count net.now → flow_of flow.now u demand <ℤ room_of net.now u demand → spare_at net.now (flow_of flow.now) u ≤ℤ pos 0 }
{
    for node in from..net.nodes() {
        if flow.sent(node) < net.cap(node) && flow.has_room(net, node, demand) {
            return node;
        }
    }
    net.nodes()
}

// The first node from a place on which has room for a demand and gives something to another.
fn carrier(net: &Net, flow: &Flow, before: usize, demand: usize, from: usize) -> usize
    requires nodes { flow.now.nodes ≡ node_count net.now }
    requires demands { flow.now.demands ≡ demand_count net.now }
    requires before { before < demand_count net.now }
    requires demand { demand < demand_count net.now }
    ensures room { result < node_count net.now → flow_of flow.now result demand <ℤ room_of net.now result demand }
    ensures carrying { result < node_count net.now → pos 0 <ℤ flow_of flow.now result before }
    ensures none { node_count net.now ≤ result → (u : ℕ) → from ≤ u → u < node_count net.now → flow_of flow.now u demand <ℤ room_of net.now u demand → flow_of flow.now u before ≤ℤ pos 0 }
{
    for node in from..net.nodes() {
        if flow.amount_at(node, before) > 0 && flow.has_room(net, node, demand) {
            return node;
        }
    }
    net.nodes()
}

// The first known demand that lacks something; past the last one where there is none.
fn lacking(net: &Net, flow: &Flow, entries: &Vec<usize>) -> usize
    requires nodes { flow.now.nodes ≡ node_count net.now }
    requires demands { flow.now.demands ≡ demand_count net.now }
    requires entries { length entries.now.items ≡ demand_count net.now }
    ensures known { result < demand_count net.now → entry_at entries.now.items result < node_count net.now }
    ensures lacks { result < demand_count net.now → pos 0 <ℤ lack_at net.now (flow_of flow.now) result }
    ensures none { demand_count net.now ≤ result → (d : ℕ) → d < demand_count net.now → entry_at entries.now.items d < node_count net.now → lack_at net.now (flow_of flow.now) d ≤ℤ pos 0 }
{
    for demand in 0..net.demands() {
        if entries[demand] < net.nodes() && flow.got(demand) < net.want(demand) {
            return demand;
        }
    }
    net.demands()
}

// Writes the path that enters a known demand.
fn trace(
    path: &mut Nums,
    net: &Net,
    flow: &Flow,
    labels: &Vec<u8>,
    search: &Search,
    demand: usize,
) -> Result<(), NoMemory>
    requires empty { path.old ≡ [] }
    requires labels { length labels.now.items ≡ demand_count net.now }
    requires demand { demand < demand_count net.now }
    requires entries { AreEntries net.now (flow_of flow.now) labels.now.items search.now.entries.items search.now.before.items }
    requires known { entry_at search.now.entries.items demand < node_count net.now }
    ensures { OnOk result (IsTrail net.now (flow_of flow.now) labels.now.items path.new demand) }
{
    if labels[demand] == 0 {
        return push_pair(path, search.entries[demand], demand);
    }
    trace(path, net, flow, labels, search, search.before[demand])?;
    push_pair(path, search.entries[demand], demand)
}

// Appends a node and a demand.
fn push_pair(path: &mut Nums, node: usize, demand: usize) -> Result<(), NoMemory>
    ensures { OnOk result (path.new ≡ path.old ++ pos node ∷ pos demand ∷ []) }
{
    path.push(node as i128)?;
    path.push(demand as i128)
}
