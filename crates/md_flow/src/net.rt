//! Nets of source nodes and demands.
ghost use Rattle.std.specs.Prelude.{◌≡◌, ℕ, ◌+◌, ◌*◌, ◌^◌, ◌<◌, ◌≤◌, Bool, pos, ◌≤ℤ◌, ◌<ℤ◌, length};
ghost use Rattle.md_math.specs.Lists.{number_at};
ghost use Rattle.md_math.specs.Sets.{member};
ghost use Rattle.md_math.specs.Sums.{sum_to};
ghost use Rattle.md_flow.specs.declared.rooms.Rooms.TheVariants.{Touched, Listed};
ghost use Rattle.md_flow.specs.Network.{IsNet, node_count, demand_count, cap_of, want_of, room_of};
ghost use Rattle.md_flow.specs.Over.{over, over_touched};
ghost use Rattle.md_flow.specs.Costs.{pair_count, touching_count};

use crate::rooms::Rooms;
use md_lp::Sets;
use md_num::Nums;
use std::marker::Model;

/// Source nodes with caps, demands, and how much each node may give to each demand.
#[derive(Drop)]
pub struct Net {
    caps: Nums,
    wants: Nums,
    rooms: Rooms,
}

impl Model for Net {
    ghost use Rattle.md_flow.specs.Network.{Network, IsNet};

    ghost Value = { Network };

    ghost view = { λ net. record { caps = net.caps; wants = net.wants; rooms = net.rooms } };

    ghost invariant = { λ net. IsNet (record { caps = net.caps; wants = net.wants; rooms = net.rooms }) };
}

impl Net {
    /// The net with these caps, demands and touched demands, which takes no memory: a node may give its cap to each demand that it touches, and nothing to another. There is one cap and one touch set for each source node; there may be no node, and no demand.
    pub fn new(caps: Nums, demands: Nums, touches: Sets) -> Net
        requires one_set { length touches ≡ length caps }
        requires few_nodes { length caps < 2 ^ 32 }
        requires few_demands { length demands ≤ 12 }
        requires caps { (u : ℕ) → u < length caps → pos 0 ≤ℤ number_at caps u }
        requires demands { (d : ℕ) → d < length demands → pos 0 ≤ℤ number_at demands d }
        requires cap_size { sum_to (length caps) (number_at caps) <ℤ pos (2 ^ 126) }
        requires demand_size { sum_to (length demands) (number_at demands) <ℤ pos (2 ^ 126) }
        ensures net { result ≡ record { caps = caps; wants = demands; rooms = Touched touches } }

        // A set is over by its demands less the caps of the nodes that touch it, and there are no more pairs with room than pairs that touch.
        ensures over { (set : ℕ → Bool) → over result set ≡ over_touched caps demands touches set }
        ensures pairs { pair_count result ≤ℤ touching_count caps demands touches }
    {
        Net {
            caps,
            wants: demands,
            rooms: Rooms::Touched(touches),
        }
    }

    /// The net with these caps, demands and rooms, which takes no memory. There is one cap for each source node, and one room for each pair, by node and then by demand: how much the node may give to the demand. There may be no node, and no demand.
    pub fn with_rooms(caps: Nums, demands: Nums, rooms: Nums) -> Net
        requires { IsNet (record { caps = caps; wants = demands; rooms = Listed rooms }) }
        ensures { result ≡ record { caps = caps; wants = demands; rooms = Listed rooms } }
    {
        Net {
            caps,
            wants: demands,
            rooms: Rooms::Listed(rooms),
        }
    }

    /// How many source nodes there are.
    pub(crate) fn nodes(&self) -> usize
        ensures value { result ≡ node_count self.now }
        ensures net { IsNet self.now }
    {
        self.caps.len()
    }

    /// How many demands there are.
    pub(crate) fn demands(&self) -> usize
        ensures value { result ≡ demand_count self.now }
        ensures net { IsNet self.now }
    {
        self.wants.len()
    }

    // The cap of a node.
    pub(crate) fn cap(&self, node: usize) -> u128
        requires { node < node_count self.now }
        ensures value { pos result ≡ cap_of self.now node }
        ensures size { result < 2 ^ 126 }
    {
        self.caps.get(node).unsigned_abs()
    }

    // A demand.
    pub(crate) fn want(&self, demand: usize) -> u128
        requires { demand < demand_count self.now }
        ensures value { pos result ≡ want_of self.now demand }
        ensures size { result < 2 ^ 126 }
    {
        self.wants.get(demand).unsigned_abs()
    }

    // How much a node may give to a demand.
    #[tactic(auto, unfolding(crate::specs::Network::room_in, crate::specs::Network::OneEach))]
    pub(crate) fn room(&self, node: usize, demand: usize) -> u128
        requires node { node < node_count self.now }
        requires demand { demand < demand_count self.now }
        ensures { pos result ≡ room_of self.now node demand }
    {
        match &self.rooms {
            Rooms::Touched(sets) => {
                if has(sets.get(node), demand) {
                    self.cap(node)
                } else {
                    0
                }
            }
            Rooms::Listed(rooms) => rooms
                .get(place(node, self.wants.len(), demand))
                .unsigned_abs(),
        }
    }
}

// Where the number for a node and a demand stands.
pub(crate) fn place(node: usize, demands: usize, demand: usize) -> usize
    requires few_nodes { node < 2 ^ 32 }
    requires few_demands { demands ≤ 12 }
    requires demand { demand < demands }
    ensures { result ≡ node * demands + demand }
{
    node * demands + demand
}

// Whether a set has a place.
fn has(set: u32, place: usize) -> bool
    requires { place < 12 }
    ensures { result ≡ member set place }
{
    (set >> place) % 2 == 1
}
