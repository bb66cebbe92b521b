//! The visit of a node.
ghost use Rattle.std.specs.Prelude.{◌≢◌, [], IfOk, MatchOption, OnOk};
ghost use Rattle.md_determ.specs.Way.{IsAtNode, IsTold, IsTurn, IsUnderWay};
ghost use Rattle.md_question_solve.specs.declared.reading.Reading.{Reading};

use crate::pairs::pairs_of;
use crate::read::read_node;
use crate::rules::{copy, is_deterministic, is_no_better};
use crate::search::Search;
use md_cert::Bound;
use md_mech::Mechanism;
use md_num::{NoMemory, Nums};
use md_question_solve::Reading;
use md_setting::Setting;
use md_simplex::SimplexError;
use md_tree::{DetAnswer, Node};
use std::alloc::Global;

/// Visits a node, and goes on to the next one; an answer where the search ends there.
pub(crate) fn visit(
    alloc: Global,
    setting: &Setting,
    search: &mut Search,
) -> Result<Option<DetAnswer>, NoMemory>
    requires way { IsUnderWay setting.now search.old.width search.old }
    requires some_open { search.old.walk.opens ≢ [] }
    ensures { IfOk result (λ end. MatchOption end (IsTurn setting.now search.old.width search.old search.new) (IsTold setting.now search.old.width)) }
{
    match read_node(alloc, setting, search.walk.fixed(), search.width) {
        Ok(reading) => take(alloc, setting, search, reading),
        Err(SimplexError::TooWide { first, second }) => {
            let fixed = pairs_of(alloc, search.walk.fixed())?;
            Ok(Some(DetAnswer::TooWide {
                fixed,
                first,
                second,
            }))
        }
        Err(SimplexError::Memory) => Err(NoMemory),
    }
}

// Goes on by what was read at the node that is visited.
fn take(
    alloc: Global,
    setting: &Setting,
    search: &mut Search,
    reading: Reading,
) -> Result<Option<DetAnswer>, NoMemory>
    requires { IsAtNode setting.now search.old.width search.old reading }
    ensures { IfOk result (λ end. MatchOption end (IsTurn setting.now search.old.width search.old search.new) (IsTold setting.now search.old.width)) }
{
    match reading {
        Reading::Optimal { mechanism, bound } => {
            take_optimal(alloc, setting, search, mechanism, bound)?;
            Ok(None)
        }
        Reading::Infeasible { face } => {
            search.close(Node::Infeasible { face })?;
            Ok(None)
        }
        Reading::Unbounded { mechanism, ray } => take_unbounded(setting, search, mechanism, ray),
    }
}

// Goes on from a node that has a best point, with the mechanism of this point.
fn take_optimal(
    alloc: Global,
    setting: &Setting,
    search: &mut Search,
    mechanism: Mechanism,
    bound: Bound,
) -> Result<(), NoMemory>
    requires { IsAtNode setting.now search.old.width search.old (Reading.Optimal mechanism bound) }
    ensures { OnOk result (IsTurn setting.now search.old.width search.old search.new) }
{
    if is_no_better(setting, &search.best, &mechanism) {
        return search.close(Node::Optimal { mechanism, bound });
    }
    if !is_deterministic(setting, &mechanism) {
        return search.split();
    }
    search.best = Some(copy(alloc, &mechanism)?);
    search.close(Node::Optimal { mechanism, bound })
}

// Goes on from a node whose cost has no end, with the mechanism of a point and the payments of a ray; an answer where each lottery
// of the mechanism is on one outcome.
fn take_unbounded(
    setting: &Setting,
    search: &mut Search,
    mechanism: Mechanism,
    ray: Nums,
) -> Result<Option<DetAnswer>, NoMemory>
    requires { IsAtNode setting.now search.old.width search.old (Reading.Unbounded mechanism ray) }
    ensures { IfOk result (λ end. MatchOption end (IsTurn setting.now search.old.width search.old search.new) (IsTold setting.now search.old.width)) }
{
    if is_deterministic(setting, &mechanism) {
        return Ok(Some(DetAnswer::Unbounded { mechanism, ray }));
    }
    search.split()?;
    Ok(None)
}
