//! Calls over streams and shelves that never fail, and over streams that take a part of a line.
use crate::answers::ONE_TYPE_TABLE;
use crate::settings::{ONE_TYPE, POSTED_PRICE};
use md_ports::{CleanShelf, CleanSink, MemShelf, MemSink};
use md_samples::words;
use md_top::mechdes;
use std::test::Fail;

#[test]
fn says_over_clean_objects(rt: HostRuntime) -> Result<(), Fail> {
    let alloc = rt.alloc();
    let mut shelf = CleanShelf::new(alloc);
    shelf.put("setting", ONE_TYPE.as_bytes())?;
    shelf.put("answer", ONE_TYPE_TABLE.as_bytes())?;
    let mut out = CleanSink::new(alloc, 100)?;
    let mut err = CleanSink::new(alloc, 100)?;
    let words = words(alloc, &["audit", "setting", "answer"])?;
    let status = mechdes(alloc, &words, &mut shelf, &mut out, &mut err);
    assert_eq!(rt; status, 0);
    assert!(rt; out.bytes() == "admissible\n".as_bytes());
    assert!(rt; err.bytes().is_empty());
    Ok(())
}

#[test]
fn tells_faults_and_wrong_words(rt: HostRuntime) -> Result<(), Fail> {
    let alloc = rt.alloc();
    let mut shelf = MemShelf::new(alloc);
    shelf.put("setting", POSTED_PRICE.as_bytes())?;
    let mut out = MemSink::new(alloc, 100)?;
    let mut err = MemSink::new(alloc, 100)?;
    let audit = words(alloc, &["audit", "setting", "absent"])?;
    assert_eq!(rt; mechdes(alloc, &audit, &mut shelf, &mut out, &mut err), 70);
    assert!(rt; err.bytes() == "mechdes: read fault\n".as_bytes());
    err.fail_at(2, 3)?;
    let nothing = words(alloc, &["audit", "setting"])?;
    assert_eq!(rt;
        mechdes(alloc, &nothing, &mut shelf, &mut out, &mut err),
        71
    );
    assert!(rt; err.bytes() == "mechdes: read fault\nmec".as_bytes());
    assert_eq!(rt;
        mechdes(alloc, &nothing, &mut shelf, &mut out, &mut err),
        64
    );
    assert!(rt; err.bytes() == "mechdes: read fault\nmecmechdes: usage\n".as_bytes());
    assert!(rt; out.bytes().is_empty());
    Ok(())
}
