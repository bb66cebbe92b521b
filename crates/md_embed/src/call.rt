//! The call.
ghost use Rattle.std.specs.Prelude.{◌≡◌, ◌⊎◌, IfOk, IfErr, map, string_bytes};
ghost use Rattle.md_embed.specs.Called.{IsCalled, IsReplied, IsSilent};
ghost use Rattle.md_embed.specs.Files.{files_in};
ghost use Rattle.md_embed.specs.Texts.{held};
ghost use Rattle.md_embed.specs.Words.{words_in};

use crate::files::Files;
use crate::text::Text;
use crate::words::words_of;
use md_cli_driver::{NO_MEMORY, USAGE, WRITE_FAULT};
use md_top::mechdes;
use std::alloc::Global;

/// How many bytes the texts of a call have, whatever room there was for them.
#[repr(C)]
pub struct Counts {
    /// The text for standard output.
    pub out: usize,
    /// The text for standard error.
    pub err: usize,
}

// What a call answered.
#[derive(Drop)]
struct Reply {
    status: u8,
    out: Text,
    err: Text,
}

// Carries a command out over two files.
fn carried_out(alloc: Global, words: &[String], setting: &[u8], second: &[u8]) -> Reply
    ensures { IsReplied (map string_bytes words.now) (files_in setting.now second.now) result.status (held result.out) (held result.err) ⊎ (result.status ≡ 71) }
{
    let mut files = Files {
        alloc,
        setting,
        second,
    };
    let mut out = Text::new(alloc);
    let mut err = Text::new(alloc);
    let status = mechdes(alloc, words, &mut files, &mut out, &mut err);
    Reply { status, out, err }
}

// What is answered to words as one text, or the status where nothing is.
fn answered(alloc: Global, words: &[u8], setting: &[u8], second: &[u8]) -> Result<Reply, u8>
    ensures replied { IfOk result (λ reply. IsReplied (words_in words.now) (files_in setting.now second.now) reply.status (held reply.out) (held reply.err)) }
    ensures silent { IfErr result (IsSilent words.now) }
{
    let Ok(text) = str::from_utf8(words) else {
        return Err(USAGE);
    };
    let Ok(words) = words_of(alloc, text) else {
        return Err(NO_MEMORY);
    };
    let reply = carried_out(alloc, &words, setting, second);
    if reply.status == WRITE_FAULT {
        return Err(NO_MEMORY);
    }
    Ok(reply)
}

/// Carries out a command over two files in memory, and gives the status of the program.
///
/// `words` are the words of the call after the program's name, as one text with newlines between them. Where they name a file,
/// the name `setting` has the bytes of `setting`, and every other name those of `second`.
/// What the program would write to its two streams is laid into the rooms `out` and `err`, as far as they go, and `counts` are
/// the lengths of the whole texts: where one is greater than its room, call again with more.
/// Words that are no UTF-8 are answered with 64, and want of memory with 72, both with empty texts where the program says
/// nothing itself. The call keeps no state.
#[unsafe(no_mangle)]
pub extern "C" fn mechdes_call(
    alloc: Global,
    words: &[u8],
    setting: &[u8],
    second: &[u8],
    out: &mut [u8],
    err: &mut [u8],
    counts: &mut Counts,
) -> u8
    ensures { IsCalled words.now setting.now second.now result out.old out.new err.old err.new counts.new.out counts.new.err }
{
    match answered(alloc, words, setting, second) {
        Ok(reply) => {
            counts.out = reply.out.lay_into(out);
            counts.err = reply.err.lay_into(err);
            reply.status
        }
        Err(status) => {
            counts.out = 0;
            counts.err = 0;
            status
        }
    }
}
