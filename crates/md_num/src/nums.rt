//! Lists of whole numbers.
ghost use Rattle.std.specs.Prelude.{◌≡◌, ℕ, ℤ, pos, ◌<◌, ◌↔◌, [], ◌∷◌, ◌++◌, length, slice_index_or, IsTrue, IfOk, OnOk, OnErr};

use crate::no_memory::NoMemory;
use std::alloc::Global;
use std::marker::Model;

/// A list of whole numbers of up to 128 bits.
#[derive(Drop)]
pub struct Nums {
    items: Vec<i128>,
}

impl Model for Nums {
    ghost use Rattle.std.specs.Prelude.{List, ℤ};

    ghost Value = { List ℤ };

    ghost view = { λ nums. nums.items.items };
}

impl Nums {
    /// The empty list, which takes no memory yet.
    pub fn new(alloc: Global) -> Nums
        ensures { result ≡ [] }
    {
        Nums {
            items: Vec::new(alloc),
        }
    }

    /// The list of some numbers.
    pub fn from_slice(alloc: Global, numbers: &[i128]) -> Result<Nums, NoMemory>
        ensures { IfOk result (λ nums. nums ≡ numbers.now) }
    {
        Ok(Nums {
            items: Vec::from_slice(alloc, numbers)?,
        })
    }

    /// Appends a number. Where memory ran out the list stays as it was.
    pub fn push(&mut self, x: i128) -> Result<(), NoMemory>
        ensures ok { OnOk result (self.new ≡ self.old ++ x ∷ []) }
        ensures err { OnErr result (self.new ≡ self.old) }
    {
        self.items.push(x)?;
        Ok(())
    }

    /// How many numbers the list has.
    pub fn len(&self) -> usize
        ensures { result ≡ length self.now }
    {
        self.items.len()
    }

    /// Whether the list has no number.
    pub fn is_empty(&self) -> bool
        ensures { IsTrue result ↔ (self.now ≡ []) }
    {
        self.items.is_empty()
    }

    /// The number at a place.
    pub fn get(&self, place: usize) -> i128
        requires { place < length self.now }
        ensures { result ≡ slice_index_or self.now place (pos 0) }
    {
        self.items[place]
    }

    /// The numbers as a slice.
    pub fn as_slice(&self) -> &[i128]
        ensures { result.now ≡ self.now }
    {
        self.items.as_slice()
    }
}
