//! Whole numbers, read from a text and written as one.
ghost use Rattle.std.specs.Prelude.{◌≡◌, ◌^◌, ◌<◌, ◌≤◌, ℤ, ◌++◌, IfOk, OnOk, OnErr, Ok, SomeIff, true, unsigned_abs, ◌==◌, slice_index, if◌then◌else◌, neg_ℤ, pos};
ghost use Rattle.std.specs.List.{list_all};
ghost use Rattle.std.specs.Char.{is_ascii_digit};
ghost use Rattle.std.specs.Str.Parse.{digits_value};
ghost use Rattle.md_num.specs.Limits.{limit_of};
ghost use Rattle.md_num.specs.WholeText.{form_fault, text_of, unsigned_text, whole_of};

use crate::no_memory::NoMemory;
use itoa::Buffer;
use thiserror::Error;

/// Why a text is no whole number in range; the first that holds, in this order.
#[derive(Clone, Copy, Debug, Error)]
pub enum NumRefusal {
    /// The text has no byte.
    #[error("the text is empty")]
    Empty,
    /// A byte is neither a digit nor a leading minus.
    #[error("a byte is no digit")]
    Digit,
    /// The text is a minus alone, or a minus before a 0.
    #[error("a minus stands before no number")]
    Sign,
    /// The text has more than one digit, and the first is 0.
    #[error("the first digit is 0")]
    LeadingZero,
    /// The number is greater than its bits allow.
    #[error("the number is too long")]
    TooLong,
}

/// Reads a whole number of at most so many bits.
pub fn read_whole(text: &[u8], bits: u8) -> Result<i128, NumRefusal>
    requires { bits ≤ 126 }
    ensures reads { result ≡ whole_of bits text.now }

    // Each number has one text, and that text is read.
    ensures text { IfOk result (λ z. text.now ≡ text_of z) }
    ensures accepts { (z : ℤ) → text.now ≡ text_of z → unsigned_abs z ≤ limit_of bits → result ≡ Ok z }
    ensures size { IfOk result (λ z. unsigned_abs z ≤ limit_of bits) }
{
    read_by_form(text, bits)
}

// The form of the text first, and then its size.
fn read_by_form(text: &[u8], bits: u8) -> Result<i128, NumRefusal>
    requires { bits ≤ 126 }
    ensures { result ≡ whole_of bits text.now }
{
    if let Some(refusal) = fault_of_form(text) {
        return Err(refusal);
    }
    let Some(size) = read_size(unsigned_part(text), greatest_size(bits)) else {
        return Err(NumRefusal::TooLong);
    };
    Ok(signed(begins_with(text, b'-'), size))
}

// The first fault in the form of a text.
fn fault_of_form(text: &[u8]) -> Option<NumRefusal>
    ensures { result ≡ form_fault text.now }
{
    if text.is_empty() {
        return Some(NumRefusal::Empty);
    }
    let digits = unsigned_part(text);
    if !all_digits(digits) {
        return Some(NumRefusal::Digit);
    }
    if begins_with(text, b'-') && (digits.is_empty() || begins_with(digits, b'0')) {
        return Some(NumRefusal::Sign);
    }
    if text.len() > 1 && begins_with(text, b'0') {
        return Some(NumRefusal::LeadingZero);
    }
    None
}

// Whether a text has a byte at its beginning.
fn begins_with(text: &[u8], byte: u8) -> bool
    requires { 0 < byte }
    ensures { result ≡ (slice_index text.now 0 == byte) }
{
    !text.is_empty() && text[0] == byte
}

// What follows a leading minus.
fn unsigned_part(text: &[u8]) -> &[u8]
    ensures { result.now ≡ unsigned_text text.now }
{
    if begins_with(text, b'-') {
        &text[1..]
    } else {
        text
    }
}

// Whether each byte is a digit.
fn all_digits(text: &[u8]) -> bool
    ensures { result ≡ list_all is_ascii_digit text.now }
{
    text.iter().all(|byte| byte.is_ascii_digit())
}

// The greatest size of a number of so many bits.
fn greatest_size(bits: u8) -> u128
    requires { bits ≤ 126 }
    ensures value { result ≡ limit_of bits }
    ensures size { result < 2 ^ 126 }
{
    (1u128 << bits) - 1
}

// The number that digits stand for, if it is at most the limit.
fn read_size(digits: &[u8], limit: u128) -> Option<u128>
    requires digits { list_all is_ascii_digit digits.now ≡ true }
    requires limit { limit < 2 ^ 126 }
    ensures { SomeIff result (digits_value 10 digits.now ≤ limit) (digits_value 10 digits.now) }
{
    let most = limit / 10;
    let mut size = 0;
    for digit in digits {
        if size > most {
            return None;
        }
        size = size * 10 + u128::from(*digit - b'0');
        if size > limit {
            return None;
        }
    }
    Some(size)
}

// A number by its sign and size.
fn signed(negative: bool, size: u128) -> i128
    requires { size < 2 ^ 126 }
    ensures { result ≡ (if negative then neg_ℤ (pos size) else pos size) }
{
    if negative {
        -(size as i128)
    } else {
        size as i128
    }
}

/// Appends the text of a number. Where memory ran out nothing was appended.
pub fn write_whole(x: i128, to: &mut Vec<u8>) -> Result<(), NoMemory>
    ensures ok { OnOk result (to.new.items ≡ to.old.items ++ text_of x) }
    ensures err { OnErr result (to.new.items ≡ to.old.items) }
{
    let mut buffer = Buffer::new();
    to.extend_from_slice(buffer.format(x).as_bytes())?;
    Ok(())
}
