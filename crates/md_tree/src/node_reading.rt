//! Reading the nodes of search trees.
ghost use Rattle.std.specs.Prelude.{◌≡◌, ◌≢◌, ◌<◌, ◌≤◌, ◌∷◌, [], ℕ, pos, length, map, codes, Ok, Err, IfOk, MatchResult};
ghost use Rattle.md_space.specs.Profiles.{profile_count};
ghost use Rattle.md_setting.specs.Setting.{GeneralSetting};
ghost use Rattle.md_setting.specs.Meaning.{sizes_of};
ghost use Rattle.md_parts.specs.Fields.{place_field};
ghost use Rattle.md_parts.specs.FirstRecord.{word_among};
ghost use Rattle.md_parts.specs.Reading.{read_record};
ghost use Rattle.md_determ_branching.specs.Fixed.{fixed_at};
ghost use Rattle.md_determ_node.specs.NodeProgram.{IsNode};
ghost use Rattle.md_tree.specs.Visits.{IsNodeFor};
ghost use Rattle.md_tree.specs.TreeText.{free_branch, branch_of, leaf_words, infeasible_leaf, optimal_leaf, leaf_of, node_of};

use crate::node::Node;
use crate::walking::row_count_at;
use md_determ_branching::Fixed;
use md_parts::{AnswerRefusal, Reader, read_bound, read_face, read_mechanism};
use md_setting::Setting;
use std::alloc::Global;

// The record of a branch: the rank of a profile.
fn read_rank(reader: &mut Reader, profiles: u32) -> Result<u32, AnswerRefusal>
    ensures read { MatchResult result
        (λ rank. read_record (codes "branch") (place_field 0 profiles ∷ []) reader.old ≡ Ok (pos rank ∷ [], reader.new))
        (λ refusal. refusal ≢ AnswerRefusal.Memory → read_record (codes "branch") (place_field 0 profiles ∷ []) reader.old ≡ Err refusal) }
    ensures below { IfOk result (λ rank. rank < profiles) }
{
    let mut fields = reader.next("branch", 1)?;
    let rank = fields.place(0, u64::from(profiles))?;
    Ok(rank as u32)
}

// A branch at a rank, which may stand there where nothing is fixed at the rank.
fn free_branch(reader: &Reader, fixed: &Fixed, rank: u32) -> Result<Node, AnswerRefusal>
    requires { rank < length fixed.now }
    ensures read { MatchResult result
        (λ node. free_branch (fixed_at fixed.now rank) rank reader.now ≡ Ok (node, reader.now))
        (λ refusal. free_branch (fixed_at fixed.now rank) rank reader.now ≡ Err refusal) }
    ensures known { (s : GeneralSetting) → IfOk result (IsNodeFor s fixed.now) }
{
    match fixed.outcome(rank) {
        None => Ok(Node::Branch(rank)),
        Some(_) => Err(reader.refusal_at(2)),
    }
}

// The record of a branch, at a rank where nothing is fixed.
fn read_branch(reader: &mut Reader, setting: &Setting, fixed: &Fixed) -> Result<Node, AnswerRefusal>
    requires { IsNode setting.now fixed.now }
    ensures read { MatchResult result
        (λ node. branch_of setting.now fixed.now reader.old ≡ Ok (node, reader.new))
        (λ refusal. refusal ≢ AnswerRefusal.Memory → branch_of setting.now fixed.now reader.old ≡ Err refusal) }
    ensures known { IfOk result (IsNodeFor setting.now fixed.now) }
{
    let rank = read_rank(reader, setting.space().profiles())?;
    free_branch(reader, fixed, rank)
}

// The words of leaves, in their order.
fn leaf_words() -> [&'static str; 2]
    ensures { map (λ w. w.now) result ≡ leaf_words }
{
    ["infeasible", "optimal"]
}

// The record of a leaf: the place of its word.
fn read_word(reader: &mut Reader) -> Result<usize, AnswerRefusal>
    ensures { MatchResult result
        (λ place. read_record (codes "leaf") (word_among leaf_words ∷ []) reader.old ≡ Ok (pos place ∷ [], reader.new))
        (λ refusal. refusal ≢ AnswerRefusal.Memory → read_record (codes "leaf") (word_among leaf_words ∷ []) reader.old ≡ Err refusal) }
{
    let mut fields = reader.next("leaf", 1)?;
    fields.one_of(&leaf_words())
}

// The face multipliers of a leaf.
fn read_infeasible(
    alloc: Global,
    reader: &mut Reader,
    setting: &Setting,
    fixed: &Fixed,
) -> Result<Node, AnswerRefusal>
    requires { IsNode setting.now fixed.now }
    ensures read { MatchResult result
        (λ node. infeasible_leaf setting.now fixed.now reader.old ≡ Ok (node, reader.new))
        (λ refusal. refusal ≢ AnswerRefusal.Memory → infeasible_leaf setting.now fixed.now reader.old ≡ Err refusal) }
    ensures known { IfOk result (IsNodeFor setting.now fixed.now) }
{
    let face = read_face(alloc, reader, row_count_at(setting, fixed))?;
    Ok(Node::Infeasible { face })
}

// The mechanism and the multipliers of a leaf.
fn read_optimal(
    alloc: Global,
    reader: &mut Reader,
    setting: &Setting,
    fixed: &Fixed,
) -> Result<Node, AnswerRefusal>
    requires { IsNode setting.now fixed.now }
    ensures read { MatchResult result
        (λ node. optimal_leaf setting.now fixed.now reader.old ≡ Ok (node, reader.new))
        (λ refusal. refusal ≢ AnswerRefusal.Memory → optimal_leaf setting.now fixed.now reader.old ≡ Err refusal) }
    ensures known { IfOk result (IsNodeFor setting.now fixed.now) }
{
    let mechanism = read_mechanism(alloc, reader, setting)?;
    let bound = read_bound(alloc, reader, row_count_at(setting, fixed))?;
    Ok(Node::Optimal { mechanism, bound })
}

// The records of a leaf.
fn read_leaf(
    alloc: Global,
    reader: &mut Reader,
    setting: &Setting,
    fixed: &Fixed,
) -> Result<Node, AnswerRefusal>
    requires { IsNode setting.now fixed.now }
    ensures read { MatchResult result
        (λ node. leaf_of setting.now fixed.now reader.old ≡ Ok (node, reader.new))
        (λ refusal. refusal ≢ AnswerRefusal.Memory → leaf_of setting.now fixed.now reader.old ≡ Err refusal) }
    ensures known { IfOk result (IsNodeFor setting.now fixed.now) }
{
    let place = read_word(reader)?;
    if place == 0 {
        read_infeasible(alloc, reader, setting, fixed)
    } else {
        read_optimal(alloc, reader, setting, fixed)
    }
}

/// The records of the node where this is fixed.
///
/// # Errors
/// The first record that may not stand there, has a wrong field or does not add to what it must, that no record is left, or that
/// memory ran out.
pub(crate) fn read_node(
    alloc: Global,
    reader: &mut Reader,
    setting: &Setting,
    fixed: &Fixed,
) -> Result<Node, AnswerRefusal>
    requires { IsNode setting.now fixed.now }
    ensures read { MatchResult result
        (λ node. node_of setting.now fixed.now reader.old ≡ Ok (node, reader.new))
        (λ refusal. refusal ≢ AnswerRefusal.Memory → node_of setting.now fixed.now reader.old ≡ Err refusal) }
    ensures known { IfOk result (IsNodeFor setting.now fixed.now) }
{
    if reader.comes_next("branch") {
        read_branch(reader, setting, fixed)
    } else {
        read_leaf(alloc, reader, setting, fixed)
    }
}
