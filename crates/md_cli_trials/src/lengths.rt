//! The greatest lengths of files that are read, and files of one byte more.
use crate::calling::carried_out;
use crate::settings::{ONE_TYPE, POSTED_PRICE, TWO_BIDDERS};
use md_ports::MemSink;
use std::alloc::{AllocError, Global};
use std::test::Fail;

// What is said of an empty second file, which is looked at only where the setting was read.
const READ: &[u8] = b"mechdes: answer refused: line 0: ended\n";

// What a command over a setting and a second file says where it is refused.
fn refusal_of(
    alloc: Global,
    command: &str,
    setting: &[u8],
    second: &[u8],
) -> Result<MemSink, AllocError> {
    let reply = carried_out(alloc, &[command, "setting", "second"], setting, second)?;
    Ok(reply.err)
}

// The greatest lengths of files.
const SETTING_LIMIT: usize = 1_048_576;

const ANSWER_LIMIT: usize = 67_108_864;

// A text, followed by as many bytes of one kind as it takes to have that length.
fn filled(alloc: Global, text: &str, byte: u8, length: usize) -> Result<Vec<u8>, AllocError> {
    let mut bytes = Vec::with_capacity(alloc, length)?;
    bytes.extend_from_slice(text.as_bytes())?;
    bytes.resize(length, byte)?;
    Ok(bytes)
}

#[test]
fn setting_files_are_read_up_to_their_greatest_length(rt: HostRuntime) -> Result<(), Fail> {
    let alloc = rt.alloc();
    let longest = filled(alloc, ONE_TYPE, b'#', SETTING_LIMIT)?;
    let said = refusal_of(alloc, "audit", &longest, b"")?;
    assert!(rt; said.bytes() == READ);
    let longer = filled(alloc, ONE_TYPE, b'#', SETTING_LIMIT + 1)?;
    let said = refusal_of(alloc, "audit", &longer, b"")?;
    assert!(rt; said.bytes() == b"mechdes: setting refused: too long\n".as_slice());
    Ok(())
}

// What is said where a second file is followed by as many empty lines as give it that length.
fn refusal_of_long(
    alloc: Global,
    command: &str,
    setting: &str,
    front: &str,
    length: usize,
) -> Result<MemSink, AllocError> {
    let second = filled(alloc, front, b'\n', length)?;
    refusal_of(alloc, command, setting.as_bytes(), &second)
}

const NO_ODDS: &str = "interim,1\nodds,0,0\nend\n";

// The item is kept whatever the bidders report.
const KEPT: &[u8] = b"realise,1\nmass,0,2,0,0\nmass,1,1,0,0\nmass,2,0,0,0\nend\n";

#[test]
fn a_second_file_is_read_up_to_its_greatest_length(rt: HostRuntime) -> Result<(), Fail> {
    let alloc = rt.alloc();
    let second = filled(alloc, NO_ODDS, b'\n', ANSWER_LIMIT)?;
    let words = ["realise", "setting", "second"];
    let reply = carried_out(alloc, &words, TWO_BIDDERS.as_bytes(), &second)?;
    assert_eq!(rt; reply.status, 0);
    assert!(rt; reply.out.bytes() == KEPT);
    assert!(rt; reply.err.bytes().is_empty());
    Ok(())
}

// A command, a setting, and the front of a second file.
static SECOND_FILES: [(&str, &str, &str); 3] = [
    (
        "audit",
        ONE_TYPE,
        "answer,1,general,table\ntable,1\nlottery,t,1\nend\n",
    ),
    ("realise", TWO_BIDDERS, NO_ODDS),
    ("replay", POSTED_PRICE, "end\n"),
];

#[test]
fn second_files_that_are_longer_are_refused(rt: HostRuntime) -> Result<(), Fail> {
    let alloc = rt.alloc();
    for (command, setting, front) in &SECOND_FILES {
        let said = refusal_of_long(alloc, command, setting, front, ANSWER_LIMIT + 1)?;
        assert!(rt;
            said.bytes() == b"mechdes: answer refused: too long\n".as_slice(),
            "at {command}"
        );
    }
    Ok(())
}
