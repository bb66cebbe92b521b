//! Whether what is told of a list on average is right.
ghost use Rattle.std.specs.Prelude.{◌≡◌, List, Some, true};
ghost use Rattle.md_setting.specs.Grouped.{GroupedAuction};
ghost use Rattle.md_list.specs.Ranks.{Rank};
ghost use Rattle.md_list.specs.Told.{has_averages, AreAverages};
ghost use Rattle.md_list_check.specs.Verdicts.{AreRight, IsAveragesVerdict};

use crate::verdict::ListVerdict;
use md_list::Averages;

/// The first of the averages that is told otherwise than it is, where they are told.
pub(crate) fn averages_verdict(told: &Option<Averages>, right: &Option<Averages>) -> ListVerdict
    ensures { (a : GroupedAuction) (ranks : List Rank) → ((averages : _) → told.now ≡ Some averages → has_averages a ≡ true) → AreRight a ranks right.now → IsAveragesVerdict a ranks told.now result }
{
    if let Some(told) = told {
        if let Some(right) = right {
            return told_verdict(told, right);
        }
    }
    ListVerdict::Valid
}

fn told_verdict(told: &Averages, right: &Averages) -> ListVerdict
    ensures { (a : GroupedAuction) (ranks : List Rank) → AreAverages a ranks right.now → IsAveragesVerdict a ranks (Some told.now) result }
{
    if told.value != right.value {
        return ListVerdict::Value(right.value);
    }
    if told.revenue != right.revenue {
        return ListVerdict::Revenue(right.revenue);
    }
    if told.welfare != right.welfare {
        return ListVerdict::Welfare(right.welfare);
    }
    ListVerdict::Valid
}
