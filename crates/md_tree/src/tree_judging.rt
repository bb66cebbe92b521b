//! Search trees that are checked as they are read.
ghost use Rattle.std.specs.Prelude.{◌≡◌, ◌≢◌, ◌<◌, ◌^◌, [], Err, length, MatchResult, option_map};
ghost use Rattle.md_space.specs.Profiles.{profile_count};
ghost use Rattle.md_setting.specs.Meaning.{outcome_count, sizes_of};
ghost use Rattle.md_determ_branching.specs.Tour.{current_of};
ghost use Rattle.md_tree.specs.Visits.{IsBest};
ghost use Rattle.md_tree.specs.TreeText.{node_of, tree_of};
ghost use Rattle.md_tree.specs.Judging.{IsJudgedTree, IsNextJudged};

use crate::node_judging::judge_node;
use crate::node_reading::read_node;
use crate::verdict::DetVerdict;
use md_determ_branching::Walk;
use md_mech::Mechanism;
use md_parts::{AnswerRefusal, Reader};
use md_setting::Setting;
use std::alloc::Global;

/// Reads the records of a tree, and answers the verdict behind it. Each leaf is checked as it is read, as long as the verdict is
/// valid, and let go then; any other verdict stays.
pub(crate) fn judge_tree(
    alloc: Global,
    reader: &mut Reader,
    setting: &Setting,
    best: Option<&Mechanism>,
    known: DetVerdict,
) -> Result<DetVerdict, AnswerRefusal>
    requires best { IsBest setting.now (option_map (λ m. m.now) best) }
    requires few { length reader.old.left < 2 ^ 64 }
    ensures { MatchResult result
        (IsJudgedTree setting.now (option_map (λ m. m.now) best.entry) known reader.old reader.new)
        (λ refusal. refusal ≢ AnswerRefusal.Memory → tree_of setting.now reader.old ≡ Err refusal) }
{
    let mut walk = Walk::new(alloc, setting.space().profiles(), setting.outcomes())?;
    let mut verdict = known;
    let mut number = 0;
    while !walk.is_over() {
        verdict = judge_next(alloc, reader, setting, best, &mut walk, number, verdict)?;
        number += 1;
    }
    Ok(verdict)
}

// Reads the node that a walk visits, of this number, and goes on behind it. Answers the verdict behind it, and keeps nothing of it.
fn judge_next(
    alloc: Global,
    reader: &mut Reader,
    setting: &Setting,
    best: Option<&Mechanism>,
    walk: &mut Walk,
    number: u64,
    known: DetVerdict,
) -> Result<DetVerdict, AnswerRefusal>
    requires best { IsBest setting.now (option_map (λ m. m.now) best) }
    requires ranks { walk.old.ranks ≡ profile_count (sizes_of setting.now) }
    requires outcomes { walk.old.outcomes ≡ outcome_count setting.now }
    requires open { walk.old.opens ≢ [] }
    ensures { MatchResult result
        (IsNextJudged setting.now (option_map (λ m. m.now) best.entry) walk.old walk.new reader.old reader.new number known)
        (λ refusal. refusal ≢ AnswerRefusal.Memory → node_of setting.now (current_of walk.old) reader.old ≡ Err refusal) }
{
    let node = read_node(alloc, reader, setting, walk.fixed())?;
    Ok(judge_node(alloc, setting, best, walk, &node, number, known)?)
}
