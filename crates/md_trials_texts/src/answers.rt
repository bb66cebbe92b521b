//! Answers that no command writes: with numbers that are the greatest or stand for nothing, in an older version, or as a table.
ghost use Rattle.std.specs.Prelude.{◌≡◌};
ghost use Rattle.md_setting.specs.ByKind.{has_no_groups};

use md_answer::{read_answer, write_answer};
use md_setting::SettingFile;
use md_toml::read_setting;
use std::alloc::Global;
use std::test::Fail;

// One agent that has 1 outside, and gets 0 at the one outcome.
const OUT_OF_REACH: &str =
    "format = \"mechanism-setting\"\nversion = 1\nkind = \"general\"\ntruth = \"dominant\"\nrational = \"ex-post\"\npayments = false\noutcomes = [\"only\"]\n[[agent]]\nname = \"a\"\ntypes = [\"t\"]\nweights = [1]\noutside = [1]\nutility = [[0]]\n";

// A seller, and one buyer whose value is 1 or 3.
const POSTED_PRICE: &str =
    "format = \"mechanism-setting\"\nversion = 1\nkind = \"general\"\ntruth = \"dominant\"\nrational = \"ex-post\"\npayments = true\noutcomes = [\"keep\", \"sell\"]\n[objective]\nrevenue = 1\n[[agent]]\nname = \"buyer\"\ntypes = [\"low\", \"high\"]\nweights = [1, 1]\nutility = [[0, 1], [0, 3]]\n";

// One bidder whose value is 1 or 3.
const ONE_BUYER: &str =
    "format = \"mechanism-setting\"\nversion = 1\nkind = \"auction\"\nbidders = 1\nvalues = [1, 3]\nweights = [1, 1]\nkeep = 2\n";

// A setting, an answer, and the same as it is written.
static WRITTEN: [(&str, &str, &str); 8] = [
    // Rows whose multipliers are 0 are left out.
    (
        OUT_OF_REACH,
        "answer,1,general,infeasible\r\nrow,0,1\r\nrow,1,0\r\nend\r\n",
        "answer,1,general,infeasible\nrow,0,1\nend\n",
    ),
    (
        POSTED_PRICE,
        "answer,1,general,optimal\nvalue,0,7\ntable,2\nlottery,low,\"2\",0\nlottery,high,1,1\npay,low,0\npay,high,-2\nbound,2\nrow,0,0,0\nrow,1,0,-2\n\nend",
        "answer,1,general,optimal\nvalue,0,7\ntable,2\nlottery,low,2,0\nlottery,high,1,1\npay,low,0\npay,high,-2\nbound,2\nrow,1,0,-2\nend\n",
    ),
    (
        POSTED_PRICE,
        "answer,1,general,toowide\npivot,4294967295,0\nwide,0,4294967295,85070591730234615865843651857942052863,1\nend",
        "answer,1,general,toowide\npivot,4294967295,0\nwide,0,4294967295,85070591730234615865843651857942052863,1\nend\n",
    ),
    (
        POSTED_PRICE,
        "answer,1,general,table\ntable,4611686018427387903\nlottery,low,4611686018427387903,0\nlottery,high,1,4611686018427387902\npay,low,-4611686018427387903\npay,high,-2\nend\n",
        "answer,1,general,table\ntable,4611686018427387903\nlottery,low,4611686018427387903,0\nlottery,high,1,4611686018427387902\npay,low,-4611686018427387903\npay,high,-2\nend\n",
    ),
    (
        ONE_BUYER,
        "answer,1,auction,optimal\nvalue,0,1\ninterim,2\nodds,1,2\npays,-1,4611686018427387903\nmass,0,1,0,2\nmass,1,0,1,0\nbound,3\nrow,2,0,0\nrow,3,-1,2\nend\n",
        "answer,1,auction,optimal\nvalue,0,1\ninterim,2\nodds,1,2\npays,-1,4611686018427387903\nmass,0,1,0,2\nmass,1,0,1,0\nbound,3\nrow,3,-1,2\nend\n",
    ),
    (
        ONE_BUYER,
        "answer,1,auction,optimal\nvalue,-5,2\ninterim,4611686018427387903\nodds,0,4611686018427387903\npays,0,0\nmass,0,1,0,4611686018427387903\nmass,1,0,0,0\ncut,3\ncut,1\ncut,2\nbound,1\nrow,6,0,1\nend\n",
        "answer,1,auction,optimal\nvalue,-5,2\ninterim,4611686018427387903\nodds,0,4611686018427387903\npays,0,0\nmass,0,1,0,4611686018427387903\nmass,1,0,0,0\ncut,3\ncut,1\ncut,2\nbound,1\nrow,6,0,1\nend\n",
    ),
    (
        ONE_BUYER,
        "answer,1,auction,toowide\ncut,1\ncut,2\ncut,3\npivot,4,0\npivot,1,1\nwide,3,3,-25,5\nend\n",
        "answer,1,auction,toowide\ncut,1\ncut,2\ncut,3\npivot,4,0\npivot,1,1\nwide,3,3,-25,5\nend\n",
    ),
    (
        ONE_BUYER,
        "answer,2,auction,toowide\ncut,2\ncut,1\npivot,4,0\nwide,3,3,-25,5\nagain\npivot,3,11\npivot,2,10\nwide,1,2,20,4\nend\n",
        "answer,2,auction,toowide\ncut,2\ncut,1\npivot,4,0\nwide,3,3,-25,5\nagain\npivot,3,11\npivot,2,10\nwide,1,2,20,4\nend\n",
    ),
];

// Whether a setting has no groups of bidders.
fn has_no_groups(file: &SettingFile) -> bool
    ensures { result ≡ has_no_groups file.now }
{
    !matches!(file, SettingFile::Bidders(_))
}

// Whether an answer about a file is read, and written as that text.
fn is_written_about(alloc: Global, file: &SettingFile, answer: &str, text: &str) -> bool {
    if !has_no_groups(file) {
        return false;
    }
    match read_answer(alloc, answer.as_bytes(), file) {
        Ok(answer) => match write_answer(alloc, file, &answer) {
            Ok(written) => written.as_slice() == text.as_bytes(),
            Err(_) => false,
        },
        Err(_) => false,
    }
}

// The same of an answer about the setting of a text.
fn is_written(alloc: Global, setting: &str, answer: &str, text: &str) -> bool {
    match read_setting(alloc, setting.as_bytes()) {
        Ok(file) => is_written_about(alloc, &file, answer, text),
        Err(_) => false,
    }
}

#[test]
fn answers_are_written_in_one_way(rt: HostRuntime) -> Result<(), Fail> {
    for (setting, answer, text) in &WRITTEN {
        assert!(rt;
            is_written(rt.alloc(), setting, answer, text),
            "at {answer}"
        );
    }
    Ok(())
}
