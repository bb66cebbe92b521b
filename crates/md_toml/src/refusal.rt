//! Why a setting file is refused.
ghost use Rattle.std.specs.Prelude.{◌≡◌};
ghost use Rattle.md_toml.specs.declared.refusal.SettingRefusal.TheVariants.{Memory};

use crate::Key;
use md_setting::BuildRefusal;
use std::alloc::{AllocError, AllocFailed};
use thiserror::Error;

/// The first reason, in the order of docs/FORMATS.md, for which a setting file is refused.
#[derive(Clone, Copy, Debug, Error)]
pub enum SettingRefusal {
    /// The bytes are no TOML document.
    #[error("not toml")]
    NotToml,
    /// A required key is absent.
    #[error("missing {}", .0.text())]
    Missing(Key),
    /// A key, or an element of its list, holds a value of another kind.
    #[error("wrong kind {}", .0.text())]
    WrongKind(Key),
    /// A key holds a word or number that is none of those it may hold.
    #[error("unknown word {}", .0.text())]
    UnknownWord(Key),
    /// A table has a key that it may not have.
    #[error("unknown key")]
    UnknownKey,
    /// What the file says is no well-formed setting. This never holds [`BuildRefusal::Memory`].
    #[error("{0}")]
    Build(BuildRefusal),
    /// There is no memory left.
    #[error("want of memory")]
    Memory,
}

impl From<AllocError> for SettingRefusal {
    ghost from_gives = { λ _ e. e ≡ Memory };

    fn from(_: AllocError) -> Self {
        SettingRefusal::Memory
    }
}

impl<T: Drop> From<AllocFailed<T>> for SettingRefusal {
    ghost from_gives = { λ _ e. e ≡ Memory };

    fn from(_: AllocFailed<T>) -> Self {
        SettingRefusal::Memory
    }
}
