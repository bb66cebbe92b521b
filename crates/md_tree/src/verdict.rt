//! What a check of an answer about deterministic mechanisms finds.
use md_mech::Broken;
use md_num::Frac;

/// The verdict on an answer.
#[derive(Clone, Copy, PartialEq, Eq)]
pub enum DetVerdict {
    /// All conditions hold, so that what the answer claims is so.
    Valid,
    /// The answer claims nothing that could be checked: it is too wide.
    Undecided,
    /// The first condition that fails.
    Rejected(DetReject),
}

/// The first condition that an answer breaks. Profiles are told by their rank, and nodes of the tree by their place in preorder,
/// both from 0 on; fractions are in least terms.
#[derive(Clone, Copy, PartialEq, Eq)]
pub enum DetReject {
    /// The lottery of the mechanism at this profile is not on one outcome.
    Lottery { rank: u32 },
    /// The mechanism breaks a condition of the setting.
    Audit { broken: Broken },
    /// The mechanism has another value than the answer says: this one.
    Value { right: Frac },
    /// The certificate of this leaf does not hold for the program of what is fixed there.
    Leaf { node: u64 },
    /// This leaf is worth more than the mechanism, or it is optimal and the answer says that there is no mechanism.
    Worth { node: u64 },
    /// The ray is not certified for the setting's program.
    Root,
}
