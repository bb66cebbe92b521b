//! Lists of words and of rows of numbers.
ghost use Rattle.std.specs.Prelude.{◌≡◌, IfOk, map};
ghost use Rattle.md_setting.specs.Setting.{names_of, lists_of};

use std::alloc::{AllocError, Global};

/// Texts as words that are their own, as names are and the words of a call.
pub fn words(alloc: Global, texts: &[&str]) -> Result<Vec<String>, AllocError>
    ensures { IfOk result (λ words. names_of words.items ≡ map (λ text. text.now) texts.now) }
{
    let mut words = Vec::new(alloc);
    for text in texts {
        words.push(String::from_str(alloc, text)?)?;
    }
    Ok(words)
}

// The rows that some lists of numbers are.
pub(crate) fn rows(alloc: Global, lists: &[&[i64]]) -> Result<Vec<Vec<i64>>, AllocError>
    ensures { IfOk result (λ rows. lists_of rows.items ≡ map (λ list. list.now) lists.now) }
{
    let mut rows = Vec::new(alloc);
    for list in lists {
        rows.push(Vec::from_slice(alloc, list)?)?;
    }
    Ok(rows)
}
