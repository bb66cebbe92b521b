//! The records that tell what bidders have where units are awarded.
ghost use Rattle.std.specs.Prelude.{◌≡◌, ◌++◌, ◌∷◌, [], length, IfOk, OnOk};
ghost use Rattle.md_cli_tell.specs.AwardTexts.{bidder_row, paid_rows, part_rows, share_rows, text_of_award, win_rows};

use md_num::{Frac, NoMemory};
use md_parts::{push_end, push_numbers};
use md_records::{Row, write_records};
use md_threshold::Share;
use std::alloc::Global;

/// What is told of each bidder.
#[derive(Clone, Copy)]
pub(crate) enum Part {
    /// How often it wins.
    Chance,
    /// What it pays where it wins, if it ever does.
    Price,
    /// That it wins at the draw, if it does.
    Win,
}

/// The text of what so many bidders have.
pub(crate) fn award_text(alloc: Global, bidders: u32, shares: &[Share]) -> Result<Vec<u8>, NoMemory>
    requires { length shares.now ≡ bidders }
    ensures { IfOk result (λ text. text.items ≡ text_of_award shares.now) }
{
    let mut rows = Vec::new(alloc);
    push_part(alloc, &mut rows, bidders, shares, Part::Chance)?;
    push_part(alloc, &mut rows, bidders, shares, Part::Price)?;
    push_part(alloc, &mut rows, bidders, shares, Part::Win)?;
    push_end(alloc, &mut rows)?;
    write_records(alloc, &rows)
}

// Adds what a part tells of all bidders.
fn push_part(
    alloc: Global,
    rows: &mut Vec<Row>,
    bidders: u32,
    shares: &[Share],
    part: Part,
) -> Result<(), NoMemory>
    requires { length shares.now ≡ bidders }
    ensures { OnOk result (rows.new.items ≡ rows.old.items ++ part_rows part shares.now) }
{
    for bidder in 0..bidders {
        push_share(alloc, rows, bidder, shares[bidder as usize], part)?;
    }
    Ok(())
}

// Adds what a part tells of a bidder, counted from 0.
fn push_share(
    alloc: Global,
    rows: &mut Vec<Row>,
    bidder: u32,
    share: Share,
    part: Part,
) -> Result<(), NoMemory>
    ensures { OnOk result (rows.new.items ≡ rows.old.items ++ share_rows part bidder share) }
{
    match part {
        Part::Chance => push_frac(alloc, rows, "chance", bidder, share.chance),
        Part::Price => push_price(alloc, rows, bidder, share.price),
        Part::Win => push_win(alloc, rows, bidder, share.wins),
    }
}

// Adds a fraction of a bidder after a word.
fn push_frac(
    alloc: Global,
    rows: &mut Vec<Row>,
    word: &str,
    bidder: u32,
    frac: Frac,
) -> Result<(), NoMemory>
    ensures { OnOk result (rows.new.items ≡ rows.old.items ++ bidder_row word.now bidder frac ∷ []) }
{
    let number = i128::from(bidder) + 1;
    push_numbers(alloc, rows, word, &[number, frac.num, frac.den])
}

// Adds a price, where there is one.
fn push_price(
    alloc: Global,
    rows: &mut Vec<Row>,
    bidder: u32,
    price: Option<Frac>,
) -> Result<(), NoMemory>
    ensures { OnOk result (rows.new.items ≡ rows.old.items ++ paid_rows bidder price) }
{
    match price {
        Some(price) => push_frac(alloc, rows, "price", bidder, price),
        None => Ok(()),
    }
}

/// Adds that a bidder wins, where it does.
pub(crate) fn push_win(
    alloc: Global,
    rows: &mut Vec<Row>,
    bidder: u32,
    wins: bool,
) -> Result<(), NoMemory>
    ensures { OnOk result (rows.new.items ≡ rows.old.items ++ win_rows bidder wins) }
{
    if wins {
        return push_numbers(alloc, rows, "wins", &[i128::from(bidder) + 1]);
    }
    Ok(())
}
