//! The versions of the format.

/// The versions of the format.
#[derive(Clone, Copy)]
pub enum Version {
    /// In which all answers stand that have one part.
    One,
    /// In which an answer stands that tells of two paths where both become too wide.
    Two,
}

impl Version {
    ghost use Rattle.std.specs.Prelude.{◌≡◌, option_map};
    ghost use Rattle.std.specs.Str.{bytes_eq};
    ghost use Rattle.md_parts.specs.Versions.{version_text, version_number, version_field};

    /// The text that names it.
    pub fn text(self) -> &'static str
        ensures { result.now ≡ version_text self }
    {
        match self {
            Version::One => "1",
            Version::Two => "2",
        }
    }

    // Whether a text names it.
    fn has_text(self, text: &[u8]) -> bool
        ensures { result ≡ bytes_eq text.now (version_text self) }
    {
        text == self.text().as_bytes()
    }

    /// The version that a text names.
    pub fn named(text: &[u8]) -> Option<Version>
        ensures { option_map version_number result ≡ version_field text.now }
    {
        if Version::One.has_text(text) {
            Some(Version::One)
        } else if Version::Two.has_text(text) {
            Some(Version::Two)
        } else {
            None
        }
    }
}
