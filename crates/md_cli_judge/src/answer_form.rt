//! Which answer a second file says.
ghost use Rattle.std.specs.Prelude.{◌≡◌, ◌⊎◌, ◌<◌, ◌==◌, length, IfSome};
ghost use Rattle.std.specs.List.{position};
ghost use Rattle.std.specs.Str.{bytes_eq};
ghost use Rattle.md_setting.specs.ByKind.{IsGeneral};
ghost use Rattle.md_cli_judge.specs.Forms.{before, behind, form_named, form_of, third_field};

use md_setting::SettingFile;

/// The answers that a second file may say.
#[derive(Clone, Copy)]
pub enum AnswerForm {
    /// About the best mechanism of a setting, or the best auction.
    Best,
    /// About the fairest mechanism.
    Fair,
    /// About the best mechanism under conditions of the designer.
    Required,
    /// About the best mechanism of a sale to bidders who differ.
    Asym,
    /// About the best deterministic mechanism.
    Determ,
}

/// Which answer a text says of a setting, by the third field of its first line.
pub(crate) fn form_of(file: &SettingFile, bytes: &[u8]) -> AnswerForm
    ensures form { result ≡ form_of file.now bytes.now }
    ensures general { (result ≡ AnswerForm.Best) ⊎ IsGeneral file.now }
{
    match file {
        SettingFile::General(_) => form_named(third_field(bytes)),
        SettingFile::Auction(_) | SettingFile::Bidders(_) => AnswerForm::Best,
    }
}

// The answer that a word names.
fn form_named(word: &[u8]) -> AnswerForm
    ensures { result ≡ form_named word.now }
{
    if is_word(word, "fair") {
        AnswerForm::Fair
    } else if is_word(word, "required") {
        AnswerForm::Required
    } else if is_word(word, "asym") {
        AnswerForm::Asym
    } else if is_word(word, "determ") {
        AnswerForm::Determ
    } else {
        AnswerForm::Best
    }
}

// Whether a text is a word.
fn is_word(text: &[u8], word: &str) -> bool
    ensures { result ≡ bytes_eq text.now word.now }
{
    text == word.as_bytes()
}

// The third field of the first line of a text.
fn third_field(bytes: &[u8]) -> &[u8]
    ensures { result.now ≡ third_field bytes.now }
{
    let line = before(bytes, b'\n');
    let second = behind(line, b',');
    before(behind(second, b','), b',')
}

// The bytes of a text before the first of these, or all where there is none.
fn before(bytes: &[u8], byte: u8) -> &[u8]
    ensures { result.now ≡ before byte bytes.now }
{
    match place_of(bytes, byte) {
        Some(place) => &bytes[..place],
        None => bytes,
    }
}

// The bytes of a text behind the first of these, or none.
fn behind(bytes: &[u8], byte: u8) -> &[u8]
    ensures { result.now ≡ behind byte bytes.now }
{
    match place_of(bytes, byte) {
        Some(place) => &bytes[place + 1..],
        None => &[],
    }
}

// The first place of a text with this byte, if there is one.
fn place_of(bytes: &[u8], byte: u8) -> Option<usize>
    ensures place { result ≡ position (λ b. b == byte) bytes.now }
    ensures within { IfSome result (λ place. place < length bytes.now) }
{
    bytes.iter().position(|b| *b == byte)
}
