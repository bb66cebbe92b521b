//! What a check finds.
use md_mech::Broken;
use md_num::Frac;
use md_question::Unmet;

/// The verdict on an answer.
#[derive(Clone, Copy)]
pub enum Verdict {
    /// All conditions hold, so that what the answer claims is so.
    Valid,
    /// The answer claims nothing that could be checked: it is a table, or too wide.
    Undecided,
    /// The first condition that fails.
    Rejected(Reject),
}

/// The first condition that an answer breaks, with its numbers. Rows and columns are those of the question's program,
/// or of the auction's reduced program with the answer's cuts, numbered from 0; fractions are in least terms.
#[derive(Clone, Copy)]
pub enum Reject {
    /// The mechanism breaks a condition of the setting.
    Audit { broken: Broken },
    /// The mechanism, or the odds and payments, have another value than the answer says: this one.
    Value { right: Frac },
    /// The multipliers of this row are negative: the face multiplier, or it is 0 and the main multiplier is.
    /// Where no mechanism is said to be, the main multiplier is 0.
    Pair { row: u32, face: i128, main: i128 },
    /// The sums of this column are negative: the face sum, or it is 0 and the main sum less the cost is.
    /// Where no mechanism is said to be, the main sum is 0.
    Column { column: u32, face: i128, main: i128 },
    /// The face multipliers times the right sides: not 0, or not negative where no mechanism is said to be.
    FaceRight { sum: i128 },
    /// The bound is another number than the cost of the mechanism's point, both in units of the program's divided cost.
    MainRight { bound: Frac, cost: Frac },
    /// The ray breaks this row: the row's sum along it.
    RayRow { row: u32, sum: i128 },
    /// The ray gains nothing: its cost.
    RayGain { sum: i128 },
    /// The masses of the value at this place do not add to its demand, which is what the odds ask for.
    Masses { kind: u32, sum: i128, demand: i128 },
    /// The odds and payments break this row of the auction's reduced program with the answer's cuts: the row's sum, and
    /// the denominator times its right side.
    Reduced { row: u32, left: i128, right: i128 },
    /// The level of the mechanism has more than 62 bits: this one.
    Level { level: i128 },
    /// The mechanism does not meet this condition of the question.
    Unmet { unmet: Unmet },
}
