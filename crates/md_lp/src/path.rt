//! Lists of pivots.
ghost use Rattle.std.specs.Prelude.{◌≡◌, ◌<◌, ◌↔◌, [], ◌∷◌, ◌++◌, length, slice_get, Some, IsTrue, OnOk, OnErr};

use crate::pivot::Pivot;
use md_num::NoMemory;
use std::alloc::Global;
use std::marker::Model;

/// A list of pivots, in the order in which they are carried out.
#[derive(Debug, Drop)]
pub struct Path {
    items: Vec<Pivot>,
}

impl Model for Path {
    ghost use Rattle.std.specs.Prelude.{List};
    ghost use Rattle.md_lp.specs.declared.pivot.Pivot.{Pivot};

    ghost Value = { List Pivot };

    ghost view = { λ path. path.items.items };
}

impl Path {
    /// The empty list, which takes no memory yet.
    pub fn new(alloc: Global) -> Path
        ensures { result ≡ [] }
    {
        Path {
            items: Vec::new(alloc),
        }
    }

    /// Appends a pivot. Where memory ran out the list stays as it was.
    pub fn push(&mut self, x: Pivot) -> Result<(), NoMemory>
        ensures ok { OnOk result (self.new ≡ self.old ++ x ∷ []) }
        ensures err { OnErr result (self.new ≡ self.old) }
    {
        self.items.push(x)?;
        Ok(())
    }

    /// How many pivots the list has.
    pub fn len(&self) -> usize
        ensures { result ≡ length self.now }
    {
        self.items.len()
    }

    /// Whether the list has no pivot.
    pub fn is_empty(&self) -> bool
        ensures { IsTrue result ↔ (self.now ≡ []) }
    {
        self.items.is_empty()
    }

    /// The pivot at a place.
    pub fn get(&self, place: usize) -> Pivot
        requires { place < length self.now }
        ensures { slice_get self.now place ≡ Some result }
    {
        self.items[place]
    }

    /// The pivots as a slice.
    pub fn as_slice(&self) -> &[Pivot]
        ensures { result.now ≡ self.now }
    {
        self.items.as_slice()
    }
}
