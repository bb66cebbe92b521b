//! How many rows and cells the linear program of a setting has.
ghost use Rattle.std.specs.Prelude.{◌≡◌, ◌≤◌, ◌<◌, ◌-◌, ◌*◌, MatchOption, true, false, length};
ghost use Rattle.md_space.specs.Profiles.{profile_count};
ghost use Rattle.md_space.specs.Sizes.{IsSpace};
ghost use Rattle.md_setting.specs.Setting.{written};
ghost use Rattle.md_setting.specs.Meaning.{outcome_count, sizes_of};
ghost use Rattle.md_setting.specs.Rows.{truth_places, truth_rows, rational_rows, deficit_rows, demand_count, payment_columns, column_count, row_count};
ghost use Rattle.md_setting.specs.Refusals.{has_few_rows};

use crate::{Rational, RawSetting, Truth};
use md_space::Space;

/// The most rows of a setting.
pub const MAX_ROWS: u32 = 4_096;

/// The most cells of the rows of a setting's table.
pub const MAX_CELLS: u64 = 4_000_000;

#[tactic(auto, using(crate::proofs::RowTests::row_tests))]
/// The number of rows, or None where there are too many rows or cells.
pub(crate) fn rows_in(raw: &RawSetting, space: &Space) -> Option<u32>
    requires sizes { space.now ≡ sizes_of (written raw.now) }
    requires outcomes { outcome_count (written raw.now) ≤ 16 }
    ensures { MatchOption result (has_few_rows (written raw.now) ≡ false) (λ rows. (has_few_rows (written raw.now) ≡ true) × (rows ≡ row_count (written raw.now))) }
{
    let demands = demands_in(raw, space);
    let rows = demands + space.profiles();
    if rows > MAX_ROWS {
        return None;
    }
    let width = columns_in(raw, space) + demands + rows + 1;
    let cells = u64::from(rows) * u64::from(width);
    if cells > MAX_CELLS {
        return None;
    }
    Some(rows)
}

fn demands_in(raw: &RawSetting, space: &Space) -> u32
    requires { space.now ≡ sizes_of (written raw.now) }
    ensures value { result ≡ demand_count (written raw.now) }
    ensures few { result ≤ 105472 }
{
    truth_rows(raw.truth, space)
        + rational_rows(raw.rational, space)
        + deficit_rows(raw.no_deficit, space)
}

fn columns_in(raw: &RawSetting, space: &Space) -> u32
    requires sizes { space.now ≡ sizes_of (written raw.now) }
    requires outcomes { outcome_count (written raw.now) ≤ 16 }
    ensures value { result ≡ column_count (written raw.now) }
    ensures few { result ≤ 28672 }
{
    space.profiles() * outcomes_in(raw) + payment_columns(raw.payments, space)
}

fn outcomes_in(raw: &RawSetting) -> u32
    requires { outcome_count (written raw.now) ≤ 16 }
    ensures { result ≡ outcome_count (written raw.now) }
{
    raw.outcomes.len() as u32
}

fn payment_columns(payments: bool, space: &Space) -> u32
    ensures value { result ≡ payment_columns payments space.now }
    ensures few { result ≤ 12288 }
{
    if payments {
        2 * (u32::from(space.agents()) * space.profiles())
    } else {
        0
    }
}

fn deficit_rows(no_deficit: bool, space: &Space) -> u32
    ensures value { result ≡ deficit_rows no_deficit space.now }
    ensures few { result ≤ 1024 }
{
    if no_deficit { space.profiles() } else { 0 }
}

fn truth_rows(truth: Truth, space: &Space) -> u32
    ensures value { result ≡ truth_rows truth space.now }
    ensures few { result ≤ 98304 }
    ensures space { IsSpace space.now }
{
    let profiles = space.profiles();
    let mut rows = 0;
    for agent in 0..space.agents() {
        let types = u32::from(space.types(agent));
        rows += truth_places(truth, profiles, types) * (types - 1);
    }
    rows
}

fn truth_places(truth: Truth, profiles: u32, types: u32) -> u32
    ensures { result ≡ truth_places truth profiles types }
{
    match truth {
        Truth::Dominant => profiles,
        Truth::Bayes => types,
    }
}

fn rational_rows(rational: Rational, space: &Space) -> u32
    ensures value { result ≡ rational_rows rational space.now }
    ensures few { result ≤ 6144 }
{
    match rational {
        Rational::None => 0,
        Rational::ExPost => u32::from(space.agents()) * space.profiles(),
        Rational::Interim => type_count(space),
    }
}

fn type_count(space: &Space) -> u32
    ensures value { result ≡ rational_rows Rational.Interim space.now }
    ensures few { result ≤ 96 }
{
    let mut types = 0;
    for agent in 0..space.agents() {
        types += u32::from(space.types(agent));
    }
    types
}
