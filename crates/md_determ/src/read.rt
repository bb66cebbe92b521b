//! What is read at a node of a search.
ghost use Rattle.std.specs.Prelude.{IfErr, IfOk};
ghost use Rattle.md_determ_node.specs.NodeProgram.{IsNode, row_count_of};
ghost use Rattle.md_question_solve.specs.Readings.{FitsReading, HasFractions};
ghost use Rattle.md_determ.specs.Readings.{IsLeftAt, IsReadAt};

use md_determ_branching::Fixed;
use md_determ_node::node_program;
use md_num::Width;
use md_question_solve::{Reading, read_program};
use md_setting::Setting;
use md_simplex::SimplexError;
use std::alloc::Global;

/// What is read off the taken path of the program of what is fixed at a node; or where its two paths have their first wide bases.
pub(crate) fn read_node(
    alloc: Global,
    setting: &Setting,
    fixed: &Fixed,
    width: Width,
) -> Result<Reading, SimplexError>
    requires { IsNode setting.now fixed.now }
    ensures read { IfOk result (IsReadAt setting.now width fixed.now) }
    ensures fits { IfOk result (FitsReading setting.now (row_count_of setting.now fixed.now)) }
    ensures left { IfErr result (IsLeftAt setting.now width fixed.now) }
    ensures wide_writable { IfErr result HasFractions }
{
    let Ok(lp) = node_program(alloc, setting, fixed) else {
        return Err(SimplexError::Memory);
    };
    read_program(alloc, setting, &lp, width)
}
