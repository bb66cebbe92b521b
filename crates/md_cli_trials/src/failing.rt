//! Each read and each write of a call fails in turn, in one call of each command.
use crate::calls::{CALLS, shelf};
use md_ports::MemSink;
use md_samples::words;
use md_top::mechdes;
use std::alloc::{AllocError, Global};
use std::test::Fail;

// The status from which on a call is refused, and says so on the stream for that.
const REFUSED: u8 = 64;

/// What a call answered, and both streams after it.
#[derive(Drop)]
struct Reply {
    status: u8,
    out: MemSink,
    err: MemSink,
}

impl Reply {
    // What stands on the stream that a call with that status writes to.
    fn told(&self, status: u8) -> &[u8] {
        if status < REFUSED {
            self.out.bytes()
        } else {
            self.err.bytes()
        }
    }

    // What stands on the other stream.
    fn beside(&self, status: u8) -> &[u8] {
        if status < REFUSED {
            self.err.bytes()
        } else {
            self.out.bytes()
        }
    }
}

// Carries a call out over the files of all calls, and streams whose first writes take that many bytes, where they fail.
fn carried_out(
    alloc: Global,
    texts: &[&str],
    failing_read: u32,
    taken: Option<u32>,
) -> Result<Reply, AllocError> {
    let words = words(alloc, texts)?;
    let mut shelf = shelf(alloc)?;
    shelf.fail_at(failing_read)?;
    let mut out = MemSink::new(alloc, 4000)?;
    let mut err = MemSink::new(alloc, 100)?;
    if let Some(taken) = taken {
        out.fail_at(1, taken)?;
        err.fail_at(1, taken)?;
    }
    let status = mechdes(alloc, &words, &mut shelf, &mut out, &mut err);
    Ok(Reply { status, out, err })
}

// Reads are numbered from 1, so that this one never comes.
const NO_READ: u32 = 0;

#[test]
fn calls_say_what_they_should(rt: HostRuntime) -> Result<(), Fail> {
    let alloc = rt.alloc();
    for (texts, reads, status, said) in &CALLS {
        let reply = carried_out(alloc, texts, reads.saturating_add(1), None)?;
        assert_eq!(rt; reply.status, *status, "at {texts:?}");
        assert!(rt;
            reply.told(*status).starts_with(said.as_bytes()),
            "at {texts:?}"
        );
        assert!(rt; reply.beside(*status).is_empty(), "at {texts:?}");
    }
    Ok(())
}

// Whether a call says a read fault where a read fails.
fn tells_read_fault(alloc: Global, texts: &[&str], read: u32) -> Result<bool, AllocError> {
    let reply = carried_out(alloc, texts, read, None)?;
    Ok(
        reply.status == 70
            && reply.out.bytes().is_empty()
            && reply.err.bytes() == "mechdes: read fault\n".as_bytes(),
    )
}

#[test]
fn each_read_that_fails_is_told(rt: HostRuntime) -> Result<(), Fail> {
    let alloc = rt.alloc();
    for (texts, reads, _, _) in &CALLS {
        for read in 1..reads.saturating_add(1) {
            assert!(rt;
                tells_read_fault(alloc, texts, read)?,
                "at {texts:?}, read {read}"
            );
        }
    }
    Ok(())
}

// Whether a write that fails after so many bytes leaves that front of what a whole call says, and nothing beside.
fn leaves_front(
    alloc: Global,
    texts: &[&str],
    whole: &Reply,
    taken: u32,
) -> Result<bool, AllocError> {
    let cut = carried_out(alloc, texts, NO_READ, Some(taken))?;
    let text = whole.told(whole.status);
    let front = text.len().min(taken as usize);
    Ok(
        cut.status == 71
            && cut.told(whole.status) == &text[..front]
            && cut.beside(whole.status).is_empty(),
    )
}

#[test]
fn each_write_that_fails_leaves_a_front(rt: HostRuntime) -> Result<(), Fail> {
    let alloc = rt.alloc();
    for (texts, _, _, _) in &CALLS {
        let whole = carried_out(alloc, texts, NO_READ, None)?;
        for taken in [0, 1, 7, 4000] {
            assert!(rt;
                leaves_front(alloc, texts, &whole, taken)?,
                "at {texts:?}, byte {taken}"
            );
        }
    }
    Ok(())
}

// Calls whose writes fail at each byte: what is printed of a wrong mechanism and of a program, and a refusal.
static AT_EACH_BYTE: [&[&str]; 3] = [
    &["audit", "price", "above"],
    &["rows", "reach"],
    &["run", "vote", "first", "r,m", "0", "0"],
];

// More bytes than any of their texts has.
const MOST_BYTES: u32 = 100;

#[test]
fn a_write_that_fails_at_any_byte_leaves_a_front(rt: HostRuntime) -> Result<(), Fail> {
    let alloc = rt.alloc();
    for texts in &AT_EACH_BYTE {
        let whole = carried_out(alloc, texts, NO_READ, None)?;
        assert!(rt;
            whole.told(whole.status).len() < MOST_BYTES as usize,
            "at {texts:?}"
        );
        for taken in 0..MOST_BYTES {
            assert!(rt;
                leaves_front(alloc, texts, &whole, taken)?,
                "at {texts:?}, byte {taken}"
            );
        }
    }
    Ok(())
}
