//! What a pivot notes while it writes.
ghost use Rattle.std.specs.Prelude.{◌≡◌, ℕ, ◌*ℤ◌, ◌^◌, ◌<◌, ◌≤◌, ℤ, pos, ◌<ℤ◌, length, IfOk, IsFalse, IsTrue};
ghost use Rattle.md_math.specs.Sizes.{AllWithin, IsWithin};
ghost use Rattle.md_math.specs.Lists.{number_at};
ghost use Rattle.md_math.specs.Divisors.{Divides};

use crate::multiples::{are_sizes_within, share_out};
use crate::rows::{Rows, filled};
use md_dict_division::is_within;
use md_num::NoMemory;
use std::alloc::Global;
use std::mem;

// What a pivot notes while it writes new rows in the places of the old ones: the pivot row and a row as they were, each row's number at the place of the pivot as it was, the rows' new denominators, shares and sizes, and a row of zeros.
#[derive(Drop)]
pub struct Draft {
    pub pivot_row: Vec<i64>,
    pub own: Vec<i64>,
    pub zeros: Vec<i64>,
    pub factors: Vec<i64>,
    pub dens: Vec<i64>,
    pub shares: Vec<i64>,
    pub sizes: Vec<i64>,
}

impl Draft {
    ghost use Rattle.md_dict.specs.RowStep.{IsDraft};

    // Room for the notes on rows of one length.
    pub fn new(alloc: Global, count: usize, width: usize) -> Result<Draft, NoMemory>
        ensures { IfOk result (IsDraft count width) }
    {
        Ok(Draft {
            pivot_row: filled(alloc, width, 0)?,
            own: filled(alloc, width, 0)?,
            zeros: filled(alloc, width, 0)?,
            factors: filled(alloc, count, 0)?,
            dens: filled(alloc, count, 0)?,
            shares: filled(alloc, count, 0)?,
            sizes: filled(alloc, count, 0)?,
        })
    }

    // Writes the shares of the new rows in a denominator, and answers whether it and all numbers over it are within a limit.
    pub fn share_out(&mut self, den: i128, limit: u128) -> bool
        requires limit { limit ≤ 2 ^ 62 }
        requires positive { pos 0 <ℤ den }
        requires dens { (k : ℕ) → k < length self.old.dens.items → (pos 0 <ℤ number_at self.old.dens.items k) × Divides (number_at self.old.dens.items k) den }
        requires shares_length { length self.old.shares.items ≡ length self.old.dens.items }
        requires sizes_length { length self.old.sizes.items ≡ length self.old.dens.items }
        requires sizes { AllWithin (2 ^ 62) self.old.sizes.items }
        requires shares { AllWithin (2 ^ 62) self.old.shares.items }
        ensures rest { self.new ≡ record self.old { shares = self.new.shares } }
        ensures length { length self.new.shares.items ≡ length self.old.shares.items }
        ensures size { AllWithin (2 ^ 62) self.new.shares.items }
        ensures narrow { IsTrue result → IsWithin limit den × ((k : ℕ) → k < length self.old.dens.items → (number_at self.new.shares.items k *ℤ number_at self.old.dens.items k ≡ den) × IsWithin limit (number_at self.new.shares.items k *ℤ number_at self.old.sizes.items k)) }
        ensures wide { IsFalse result → ¬ (IsWithin limit den × ((k : ℕ) → (share : ℤ) → k < length self.old.dens.items → share *ℤ number_at self.old.dens.items k ≡ den → IsWithin limit (share *ℤ number_at self.old.sizes.items k))) }
    {
        if !is_within(den, limit) {
            return false;
        }
        share_out(den as i64, self.dens.as_slice(), self.shares.as_mut_slice());
        are_sizes_within(self.sizes.as_slice(), self.shares.as_slice(), limit)
    }

    // Gives the rows their new denominators, shares and sizes, and takes the old ones.
    pub fn hand_over(&mut self, rows: &mut Rows)
        ensures rows { rows.new ≡ record rows.old { dens = self.old.dens; shares = self.old.shares; sizes = self.old.sizes } }
        ensures draft { self.new ≡ record self.old { dens = rows.old.dens; shares = rows.old.shares; sizes = rows.old.sizes } }
    {
        mem::swap(&mut rows.dens, &mut self.dens);
        mem::swap(&mut rows.shares, &mut self.shares);
        mem::swap(&mut rows.sizes, &mut self.sizes);
    }
}
