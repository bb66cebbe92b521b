//! Reading a file of interim odds.
ghost use Rattle.std.specs.Prelude.{◌≡◌, ◌≢◌, pos, Ok, Err, replicate, IfOk, IfErr, MatchResult};
ghost use Rattle.md_border.specs.Odds.{IsInterim};
ghost use Rattle.md_answer.specs.Odds.{odds_of};

use crate::AnswerRefusal;
use crate::interim_records::{read_denominator, read_list};
use md_border::Interim;
use md_num::Nums;
use md_parts::{Reader, read_last};
use md_setting::Auction;
use std::alloc::Global;

// So many zeros.
fn zeros(alloc: Global, count: usize) -> Result<Nums, AnswerRefusal>
    ensures ok { IfOk result (λ zeros. zeros ≡ replicate count (pos 0)) }
    ensures memory { IfErr result (λ refusal. refusal ≡ AnswerRefusal.Memory) }
{
    let mut zeros = Nums::new(alloc);
    for place in 0..count {
        let _ = place;
        zeros.push(0)?;
    }
    Ok(zeros)
}

/// Reads the interim odds of an auction: their denominator, the odds of the kinds of values, and then the end. Each
/// number is from 0 to the denominator, and nothing is paid.
///
/// # Errors
/// The first record that may not stand there or has a wrong field, that no end stands among the records, or want of
/// memory.
pub fn read_odds(alloc: Global, bytes: &[u8], auction: &Auction) -> Result<Interim, AnswerRefusal>
    ensures reads { MatchResult result
        (λ interim. odds_of auction.now bytes.now ≡ Ok interim)
        (λ refusal. refusal ≢ AnswerRefusal.Memory → odds_of auction.now bytes.now ≡ Err refusal) }
    ensures accepted { IfOk result (IsInterim auction.now) }
{
    let mut reader = Reader::new(alloc, bytes)?;
    let den = read_denominator(&mut reader)?;
    let odds = read_list(alloc, &mut reader, auction, den)?;
    read_last(&mut reader)?;
    let pays = zeros(alloc, auction.kinds() as usize)?;
    Ok(Interim {
        den: i128::from(den),
        odds,
        pays,
    })
}
