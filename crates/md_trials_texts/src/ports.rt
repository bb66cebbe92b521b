//! Files and streams in memory, which stand for those of a program.
use md_ports::{CleanShelf, CleanSink, MemShelf, MemSink, Shelf, ShelfError, Sink};
use std::alloc::{AllocError, Global};
use std::test::Fail;

// Two files, of which the first was replaced, and a second read that fails.
fn shelf(alloc: Global) -> Result<MemShelf, AllocError> {
    let mut shelf = MemShelf::new(alloc);
    shelf.put("a", b"old")?;
    shelf.put("b", b"12345")?;
    shelf.put("a", b"new")?;
    shelf.fail_at(2)?;
    Ok(shelf)
}

// Whether a read of at most three bytes, and one more where there is one, gives these.
fn reads(shelf: &mut impl Shelf, name: &str, wanted: &[u8]) -> bool {
    match shelf.read(name, 3) {
        Ok(bytes) => bytes.as_slice() == wanted,
        Err(_) => false,
    }
}

fn fails(shelf: &mut MemShelf, name: &str) -> bool {
    match shelf.read(name, 3) {
        Err(ShelfError::Failed) => true,
        _ => false,
    }
}

#[test]
fn a_shelf_fails_where_it_is_told_to(rt: HostRuntime) -> Result<(), Fail> {
    let mut shelf = shelf(rt.alloc())?;
    assert!(rt; reads(&mut shelf, "a", b"new"));
    assert!(rt; fails(&mut shelf, "a"));
    assert!(rt; fails(&mut shelf, "c"));
    assert!(rt; reads(&mut shelf, "b", b"1234"));
    Ok(())
}

// A sink for five bytes whose second write fails behind the first byte.
fn sink(alloc: Global) -> Result<MemSink, AllocError> {
    let mut sink = MemSink::new(alloc, 5)?;
    sink.fail_at(2, 2)?;
    sink.fail_at(2, 1)?;
    Ok(sink)
}

#[test]
fn a_sink_fails_where_it_is_told_to(rt: HostRuntime) -> Result<(), Fail> {
    let mut sink = sink(rt.alloc())?;
    assert!(rt; sink.write(b"ab").is_ok());
    assert!(rt; sink.write(b"cd").is_err());
    assert!(rt; sink.bytes() == b"abc".as_slice());
    assert!(rt; sink.write(b"xyz").is_err());
    assert!(rt; sink.bytes() == b"abcxy".as_slice());
    Ok(())
}

#[test]
fn a_clean_shelf_does_not_fail(rt: HostRuntime) -> Result<(), Fail> {
    let mut shelf = CleanShelf::new(rt.alloc());
    shelf.put("a", b"text")?;
    assert!(rt; reads(&mut shelf, "a", b"text"));
    assert!(rt; reads(&mut shelf, "b", b""));
    Ok(())
}

// Bytes that go past its room are not told, and are no fault.
#[test]
fn a_clean_sink_does_not_fail(rt: HostRuntime) -> Result<(), Fail> {
    let mut sink = CleanSink::new(rt.alloc(), 4)?;
    assert!(rt; sink.write(b"text").is_ok());
    assert!(rt; sink.bytes() == b"text".as_slice());
    assert!(rt; sink.write(b"more").is_ok());
    Ok(())
}
