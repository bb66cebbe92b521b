//! The search for the best deterministic mechanism.
ghost use Rattle.std.specs.Prelude.{◌≡◌, [], IfOk};
ghost use Rattle.md_tree.specs.AnswerTo.{IsDetAnswerTo};
ghost use Rattle.md_tree.specs.Verdicts.{ClaimHolds, ClaimsNothing, IsVerdict};
ghost use Rattle.md_tree.specs.declared.answer.DetAnswer.{DetAnswer};
ghost use Rattle.md_tree.specs.declared.verdict.DetVerdict.{DetVerdict};
ghost use Rattle.md_determ.specs.Search.{IsSearched};
ghost use Rattle.md_determ.specs.Way.{IsTold, IsUnderWay};

use crate::search::Search;
use crate::visiting::visit;
use md_determ_branching::Walk;
use md_mech::worth;
use md_num::{NoMemory, Width};
use md_setting::Setting;
use md_tree::{DetAnswer, Tree};
use std::alloc::Global;

/// Finds the best deterministic mechanism of a setting, by a search that fixes outcomes at profiles: a mechanism whose lotteries
/// are each on one outcome, with a search tree that shows that none is better; or a search tree that shows that there is none; or
/// one with payments that may be added to it again and again, with a gain each time; or the first program of a node of which each
/// path has a basis that is too wide. Memory is taken for the tree, and for the program of one node at a time.
///
/// # Errors
/// Want of memory alone.
pub fn solve_determ(alloc: Global, setting: &Setting, width: Width) -> Result<DetAnswer, NoMemory>
    ensures searched { IfOk result (IsSearched setting.now width) }

    // A setting and a width have one answer.
    ensures only { (other : DetAnswer) → IsSearched setting.now width other → IfOk result (λ answer. answer ≡ other) }

    // What is claimed is so, over mechanisms of any denominator, with numbers of any size, and the checker finds it valid.
    ensures claim { IfOk result (λ answer. (¬ ClaimsNothing answer) → ClaimHolds setting.now answer) }
    ensures valid { IfOk result (λ answer. (¬ ClaimsNothing answer) → IsVerdict setting.now answer DetVerdict.Valid) }

    // The answer can be written and checked.
    ensures writable { IfOk result (IsDetAnswerTo setting.now) }
{
    let _shaped = setting.space();
    search_from_root(alloc, setting, width)
}

// The answer of the search from the root on.
fn search_from_root(alloc: Global, setting: &Setting, width: Width) -> Result<DetAnswer, NoMemory>
    ensures { IfOk result (IsTold setting.now width) }
{
    let mut search = begin(alloc, setting, width)?;
    while !search.walk.is_over() {
        if let Some(answer) = visit(alloc, setting, &mut search)? {
            return Ok(answer);
        }
    }
    Ok(finish(setting, search))
}

// The search at the root.
fn begin(alloc: Global, setting: &Setting, width: Width) -> Result<Search, NoMemory>
    ensures { IfOk result (IsUnderWay setting.now width) }
{
    let profiles = setting.space().profiles();
    Ok(Search {
        width,
        walk: Walk::new(alloc, profiles, setting.outcomes())?,
        tree: Tree::new(alloc),
        best: None,
    })
}

// The answer where no node is open any more.
fn finish(setting: &Setting, search: Search) -> DetAnswer
    requires way { IsUnderWay setting.now search.width search }
    requires over { search.walk.opens ≡ [] }
    ensures { IsTold setting.now search.width result }
{
    let Search { tree, best, .. } = search;
    match best {
        Some(mechanism) => DetAnswer::Optimal {
            value: worth(setting, &mechanism),
            mechanism,
            tree,
        },
        None => DetAnswer::Infeasible { tree },
    }
}
