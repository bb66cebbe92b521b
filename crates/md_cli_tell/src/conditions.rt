//! How a mechanism stands against the conditions of the designer, in records.
ghost use Rattle.std.specs.Prelude.{◌≡◌, IfOk};
ghost use Rattle.md_mechanism_text.specs.Proposals.{IsProposedFor};
ghost use Rattle.md_cli_tell.specs.Standings.{TellStandings, met_word, standing_record, standing_records};

use md_mechanism_text::Proposal;
use md_num::NoMemory;
use md_records::Row;
use md_report::with_fraction;
use md_require::{Standing, standings};
use md_setting::Setting;
use std::alloc::Global;

/// The records of how a mechanism stands against each of its conditions.
pub(crate) fn conditions_told(
    alloc: Global,
    setting: &Setting,
    proposal: &Proposal,
) -> Result<Vec<Row>, NoMemory>
    requires { IsProposedFor setting.now proposal.now }
    ensures { IfOk result (λ rows. TellStandings setting.now proposal.now rows.items) }
{
    let standings = standings(alloc, setting, proposal.conditions(), proposal.mechanism())?;
    let records = standing_records(alloc, &standings)?;
    Ok(records)
}

// A record for each condition, by its number from 0.
fn standing_records(alloc: Global, standings: &[Standing]) -> Result<Vec<Row>, NoMemory>
    ensures { IfOk result (λ rows. rows.items ≡ standing_records 0 standings.now) }
{
    let mut rows = Vec::new(alloc);
    for (index, standing) in standings.iter().enumerate() {
        rows.push(standing_record(alloc, index, *standing)?)?;
    }
    Ok(rows)
}

// The record of one condition.
fn standing_record(alloc: Global, index: usize, standing: Standing) -> Result<Row, NoMemory>
    ensures { IfOk result (λ row. row ≡ standing_record index standing) }
{
    let head = Row::new(alloc)
        .with(b"condition")?
        .with_number(index as i128)?
        .with(met_word(standing.met).as_bytes())?;
    with_fraction(head, standing.amount)
}

fn met_word(met: bool) -> &'static str
    ensures { result.now ≡ met_word met }
{
    if met { "met" } else { "missed" }
}
