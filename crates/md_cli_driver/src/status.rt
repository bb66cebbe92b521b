//! The statuses with which a call ends. Those below 64 are of answers, the others of refusals and faults.

/// What was asked for is printed.
pub const DONE: u8 = 0;

/// No mechanism is admissible.
pub const INFEASIBLE: u8 = 10;

/// The objective has no bound.
pub const UNBOUNDED: u8 = 11;

/// Numbers on the way to the answer grow past the width.
pub const TOO_WIDE: u8 = 12;

/// A condition fails, which is told.
pub const REJECTED: u8 = 20;

/// Interim odds have no mechanism, as a set of values shows.
pub const VIOLATED: u8 = 21;

/// Nothing is claimed that could be judged, or no closed form has numbers that fit.
pub const UNDECIDED: u8 = 22;

/// The words are no command.
pub const USAGE: u8 = 64;

/// The setting is refused.
pub const SETTING_REFUSED: u8 = 65;

/// The second file is refused.
pub const ANSWER_REFUSED: u8 = 66;

/// A number, a profile, a draw or a listed pivot is refused.
pub const ARGUMENT_REFUSED: u8 = 67;

/// A file could not be read.
pub const READ_FAULT: u8 = 70;

/// A text could not be written.
pub const WRITE_FAULT: u8 = 71;

/// There is no memory left.
pub const NO_MEMORY: u8 = 72;
