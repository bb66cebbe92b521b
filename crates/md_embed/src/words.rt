//! The words of a call, which come as one text.
ghost use Rattle.std.specs.Prelude.{◌≡◌, IfOk, map, string_bytes};
ghost use Rattle.md_embed.specs.Words.{words_in};

use std::alloc::{AllocError, Global};

/// The words of a text: the pieces between its newlines.
pub(crate) fn words_of(alloc: Global, text: &str) -> Result<Vec<String>, AllocError>
    ensures { IfOk result (λ words. map string_bytes words.items ≡ words_in text.now) }
{
    owned(alloc, &pieces_of(alloc, text)?)
}

// The pieces of a text between its newlines.
fn pieces_of(alloc: Global, text: &str) -> Result<Vec<&str>, AllocError>
    ensures { IfOk result (λ pieces. map (λ piece. piece.now) pieces.items ≡ words_in text.now) }
{
    text.split('\n').collect(alloc)
}

// Words of their own.
fn owned(alloc: Global, pieces: &[&str]) -> Result<Vec<String>, AllocError>
    ensures { IfOk result (λ words. map string_bytes words.items ≡ map (λ piece. piece.now) pieces.now) }
{
    let mut words = Vec::new(alloc);
    for piece in pieces {
        words.push(String::from_str(alloc, piece)?)?;
    }
    Ok(words)
}
