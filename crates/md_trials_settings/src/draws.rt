//! Draws at profiles that no words stand for.
ghost use Rattle.std.specs.Prelude.{◌≡◌};
ghost use Rattle.md_setting.specs.ByKind.{has_no_groups};

use md_answer::read_answer;
use md_run::{DrawRefusal, draw};
use md_samples::sale;
use md_setting::{Auction, Setting, SettingFile};
use std::alloc::Global;
use std::test::Fail;

// A seller who keeps or sells an item, and a buyer of a low or a high type.
fn buyer(alloc: Global) -> Result<SettingFile, Fail> {
    let raw = sale(alloc, 3, 2)?;
    match Setting::new(alloc, raw) {
        Ok(setting) => Ok(SettingFile::General(setting)),
        Err(_) => Err("no setting".into()),
    }
}

// Three bidders with the values 1, 2 and 3, which weigh the same.
fn bidders(alloc: Global) -> Result<SettingFile, Fail> {
    match Auction::new(alloc, 3, &[1, 2, 3], &[1, 1, 1], 1, 0, 0) {
        Ok(auction) => Ok(SettingFile::Auction(auction)),
        Err(_) => Err("no auction".into()),
    }
}

// An answer, the reports by their places, both draws, and why they are refused.
struct Case {
    text: &'static str,
    profile: &'static [u8],
    draws: (i128, i128),
    refusal: DrawRefusal,
}

const LOTTERIES: &str =
    "answer,1,general,table\ntable,4\nlottery,low,4,0\nlottery,high,1,3\npay,low,0\npay,high,0\nend\n";

const BEST: &str =
    "answer,1,auction,optimal\nvalue,64,27\ninterim,27\nodds,0,7,19\npays,0,14,50\nmass,0,0,3,0,0,27\nmass,0,1,2,0,0,81\nmass,0,2,1,0,0,81\nmass,0,3,0,0,27,0\nmass,1,0,2,0,0,81\nmass,1,1,1,0,0,162\nmass,1,2,0,0,81,0\nmass,2,0,1,0,0,81\nmass,2,1,0,0,81,0\nmass,3,0,0,0,0,0\ncut,1\ncut,2\ncut,4\nbound,1\nend\n";

// A type that the buyer does not have, and other numbers of reports than there are agents. Where there is no mechanism nothing
// else is looked at.
static SOLD: [Case; 5] = [
    Case {
        text: LOTTERIES,
        profile: &[2],
        draws: (9, 9),
        refusal: DrawRefusal::Profile,
    },
    Case {
        text: LOTTERIES,
        profile: &[],
        draws: (0, 0),
        refusal: DrawRefusal::Profile,
    },
    Case {
        text: LOTTERIES,
        profile: &[0, 0],
        draws: (0, 0),
        refusal: DrawRefusal::Profile,
    },
    Case {
        text: LOTTERIES,
        profile: &[1],
        draws: (-1, 0),
        refusal: DrawRefusal::Draw,
    },
    Case {
        text: "answer,1,general,infeasible\nrow,0,1\nend\n",
        profile: &[2, 2],
        draws: (-1, 5),
        refusal: DrawRefusal::NoTable,
    },
];

// The same of the bidders, and draws below 0.
static GIVEN: [Case; 4] = [
    Case {
        text: BEST,
        profile: &[3, 0, 0],
        draws: (0, 0),
        refusal: DrawRefusal::Profile,
    },
    Case {
        text: BEST,
        profile: &[0, 0],
        draws: (0, 0),
        refusal: DrawRefusal::Profile,
    },
    Case {
        text: BEST,
        profile: &[1, 1, 0],
        draws: (80, -1),
        refusal: DrawRefusal::Draw,
    },
    Case {
        text: BEST,
        profile: &[0, 0, 0],
        draws: (-1, 0),
        refusal: DrawRefusal::Draw,
    },
];

fn is_same(found: DrawRefusal, wanted: DrawRefusal) -> bool {
    match (found, wanted) {
        (DrawRefusal::NoTable, DrawRefusal::NoTable)
        | (DrawRefusal::Profile, DrawRefusal::Profile)
        | (DrawRefusal::Draw, DrawRefusal::Draw) => true,
        _ => false,
    }
}

// Whether a setting has no groups of bidders.
fn has_no_groups(file: &SettingFile) -> bool
    ensures { result ≡ has_no_groups file.now }
{
    !matches!(file, SettingFile::Bidders(_))
}

fn is_refused(alloc: Global, file: &SettingFile, case: &Case) -> bool {
    let (first, second) = case.draws;
    if !has_no_groups(file) {
        return false;
    }
    match read_answer(alloc, case.text.as_bytes(), file) {
        Ok(answer) => match draw(alloc, file, &answer, case.profile, first, second) {
            Ok(_) => false,
            Err(refusal) => is_same(refusal, case.refusal),
        },
        Err(_) => false,
    }
}

// The first case that is not as it is told.
fn first_other(alloc: Global, file: &SettingFile, cases: &[Case]) -> Option<usize> {
    for (place, case) in cases.iter().enumerate() {
        if !is_refused(alloc, file, case) {
            return Some(place);
        }
    }
    None
}

#[test]
fn nothing_is_drawn_at_other_profiles(rt: HostRuntime) -> Result<(), Fail> {
    let alloc = rt.alloc();
    assert_eq!(rt; first_other(alloc, &buyer(alloc)?, &SOLD), None);
    assert_eq!(rt; first_other(alloc, &bidders(alloc)?, &GIVEN), None);
    Ok(())
}
