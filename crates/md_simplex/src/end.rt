//! What a run answers.
use md_cert::Certificate;
use md_lp::Path;

/// The end of a path none of whose bases is too wide.
#[derive(Drop)]
pub struct End {
    /// The pivots of the path, from the first basis on.
    pub path: Path,
    /// What is read off the dictionary of the last basis.
    pub certificate: Certificate,
}
