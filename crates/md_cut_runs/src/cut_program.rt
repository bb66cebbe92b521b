//! What a cut run goes over.
ghost use Rattle.std.specs.Prelude.{◌≡◌, ℕ, ℤ, IfOk};
ghost use Rattle.md_math.specs.Lists.{number_at};
ghost use Rattle.md_lp.specs.Cuts.{AreCuts};
ghost use Rattle.md_cut_runs.specs.Cutting.{Cutting, IsCutPoint, IsCutting};
ghost use Rattle.md_cut_runs.specs.Worst.{IsWorst, NoneOver, WhereTable, WhereViolated};

use md_lp::{Lp, Sets};
use md_num::{NoMemory, Nums};
use std::alloc::Global;

/// The set that is over most at a point, or what shows that none is.
#[derive(Drop)]
pub enum Worst<T> {
    /// No set is over.
    Table(T),
    /// Of the sets that are over most, the largest one.
    Violated(u32),
}

/// Programs by lists of cuts, and by how much sets are over at points.
pub trait CutProgram {
    /// What shows that no set is over at a point.
    type Table: Drop;

    /// The places of its sets, its programs, and by how much a set is over.
    ghost cutting: { Self → Cutting };

    /// What a table says of the numbers of a point over a denominator.
    ghost shows: { Self → ℤ → (ℕ → ℤ) → Self.Table → Type 0 };

    /// How many places its sets have.
    fn places(&self) -> u32
        ensures count { result ≡ (cutting self.now).places }
        ensures cutting { IsCutting (cutting self.now) };

    /// The program of a list of cuts. Nothing but want of memory is an error.
    fn program(&self, alloc: Global, cuts: &Sets) -> Result<Lp, NoMemory>
        requires { AreCuts (cutting self.now).places cuts.now }
        ensures { IfOk result ((cutting self.now).is_program cuts.now) };

    /// The set that is over most at a point, or what shows that none is. Nothing but want of memory is an error.
    fn worst(&self, alloc: Global, den: i128, point: &Nums) -> Result<Worst<Self::Table>, NoMemory>
        requires { IsCutPoint (cutting self.now) den point.now }
        ensures violated { IfOk result (WhereViolated (IsWorst (cutting self.now) den (number_at point.now))) }
        ensures none_over { IfOk result (WhereTable (λ _. NoneOver (cutting self.now) den (number_at point.now))) }
        ensures shows { IfOk result (WhereTable (shows self.now den (number_at point.now))) };
}
