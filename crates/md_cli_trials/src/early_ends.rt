//! Files that end early: each front of an answer of each kind, of an odds file, of a pivots file and of a basis.
use crate::answers::{ONE_BUYER_ANSWER, POSTED_PRICE_ANSWER};
use crate::calling::carried_out;
use crate::settings::{
    ONE_BUYER, OUT_OF_REACH, POSTED_PRICE, STRONG_AND_WEAK, TAKING, THREE_BIDDERS, TWO_BIDDERS,
};
use std::alloc::{AllocError, Global};
use std::test::Fail;

// A command, a setting, its second file, and the status of the whole file.
static FILES: [(&str, &str, &str, u8); 17] = [
    ("check", POSTED_PRICE, POSTED_PRICE_ANSWER, 0),
    (
        "check",
        OUT_OF_REACH,
        "answer,1,general,infeasible\nrow,0,1\nend\n",
        0,
    ),
    (
        "check",
        TAKING,
        "answer,1,general,unbounded\ntable,1\nlottery,t,1\npay,t,0\nray,t,1\nend\n",
        0,
    ),
    (
        "check",
        POSTED_PRICE,
        "answer,2,general,toowide\npivot,4,0\npivot,1,1\nwide,3,3,-25,5\nagain\nwide,1,1,20,1\nend\n",
        22,
    ),
    ("check", ONE_BUYER, ONE_BUYER_ANSWER, 0),
    (
        "check",
        ONE_BUYER,
        "answer,2,auction,toowide\ncut,1\ncut,2\nwide,1,1,20,1\nagain\nwide,1,1,20,1\nend\n",
        22,
    ),
    (
        "determcheck",
        OUT_OF_REACH,
        "answer,1,determ,infeasible\nleaf,infeasible\nrow,0,1\nend\n",
        0,
    ),
    (
        "determcheck",
        POSTED_PRICE,
        "answer,1,determ,toowide\nfix,0,1\nfix,1,0\npivot,4,0\nwide,3,3,-25,5\nagain\nwide,1,1,20,1\nend\n",
        22,
    ),
    (
        "check",
        TAKING,
        "answer,1,fair,unbounded\ntable,1\nlottery,t,1\npay,t,0\nray,t,-1\nend\n",
        0,
    ),
    (
        "check",
        POSTED_PRICE,
        "answer,1,fair,toowide\npivot,4,0\nwide,1,1,20,1\nagain\nwide,1,1,20,1\nend\n",
        22,
    ),
    (
        "check",
        STRONG_AND_WEAK,
        "answer,1,asym,optimal\nvalue,17,4\ninterim,2\nodds,weak,0,1\nodds,strong,1,2\npays,weak,0,3\npays,strong,4,10\nmass,v2,v4,0,2\nmass,v2,v6,0,2\nmass,v3,v4,2,0\nmass,v3,v6,0,2\ncut,8\ncut,10\ncut,15\nbound,2\nrow,1,0,2\nrow,3,0,2\nrow,4,0,4\nrow,6,0,4\nrow,8,0,6\nrow,9,0,1\nrow,10,0,4\nend\n",
        0,
    ),
    (
        "check",
        STRONG_AND_WEAK,
        "answer,1,asym,toowide\ncut,1\npivot,0,1\nwide,0,0,9,1\nagain\nwide,0,0,9,1\nend\n",
        22,
    ),
    (
        "audit",
        POSTED_PRICE,
        "answer,1,general,table\ntable,2\nlottery,low,2,0\nlottery,high,1,1\npay,low,0\npay,high,1\nend\n",
        0,
    ),
    ("realise", TWO_BIDDERS, "interim,4\nodds,0,3\nend\n", 0),
    (
        "realise",
        THREE_BIDDERS,
        "interim,27\nodds,0,7,19\nend\n",
        0,
    ),
    ("replay", POSTED_PRICE, "pivot,4,0\npivot,1,1\nend\n", 0),
    ("find", OUT_OF_REACH, "column,0\nslack,0\nend\n", 10),
];

// The word for the second file, which `find` has as an option.
fn second_word(command: &str) -> &str {
    match command {
        "find" => "--from=second",
        _ => "second",
    }
}

// The status of a command over a setting and a second file.
fn status_of(alloc: Global, command: &str, setting: &str, second: &[u8]) -> Result<u8, AllocError> {
    let words = [command, "setting", second_word(command)];
    Ok(carried_out(alloc, &words, setting.as_bytes(), second)?.status)
}

#[test]
fn whole_files_are_read(rt: HostRuntime) -> Result<(), Fail> {
    let alloc = rt.alloc();
    for (command, setting, second, status) in &FILES {
        let got = status_of(alloc, command, setting, second.as_bytes())?;
        assert_eq!(rt; got, *status, "at {second}");
    }
    Ok(())
}

// The newline behind the last record may be left out.
#[test]
fn the_last_newline_may_be_missing(rt: HostRuntime) -> Result<(), Fail> {
    let alloc = rt.alloc();
    for (command, setting, second, status) in &FILES {
        let bytes = second.as_bytes();
        let got = status_of(
            alloc,
            command,
            setting,
            &bytes[..bytes.len().saturating_sub(1)],
        )?;
        assert_eq!(rt; got, *status, "at {second}");
    }
    Ok(())
}

#[test]
fn each_shorter_front_is_refused(rt: HostRuntime) -> Result<(), Fail> {
    let alloc = rt.alloc();
    for (command, setting, second, _) in &FILES {
        let bytes = second.as_bytes();
        for length in 0..bytes.len().saturating_sub(1) {
            let got = status_of(alloc, command, setting, &bytes[..length])?;
            assert_eq!(rt; got, 66, "at {second} up to {length}");
        }
    }
    Ok(())
}
