//! What a command answers.

/// What a command answers: a status below 64 and the text for standard output.
#[derive(Drop)]
pub struct Answered {
    /// The status.
    pub status: u8,
    /// The text.
    pub text: Vec<u8>,
}
