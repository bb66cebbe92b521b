//! What is wrong with a certificate.
use md_num::Frac;

/// The first condition of a certificate that fails, with its numbers. Rows and columns are numbered from 0.
#[derive(Clone, Copy)]
pub enum CertFault {
    /// The point breaks this row: the row's sum, and the denominator times the right side.
    Point { row: u32, left: i128, right: i128 },
    /// The multipliers of this row are negative: the face multiplier, or it is 0 and the main multiplier is.
    Pair { row: u32, face: i128, main: i128 },
    /// The sums of this column are negative: the face sum, or it is 0 and the main sum less the cost is.
    Column { column: u32, face: i128, main: i128 },
    /// The face multipliers times the right sides: not 0, or not negative where no point is said to be.
    FaceRight { sum: i128 },
    /// The bound is another number than the point's cost, each in least terms.
    MainRight { bound: Frac, cost: Frac },
    /// The ray breaks this row: the row's sum along it.
    RayRow { row: u32, sum: i128 },
    /// The ray gains nothing: its cost.
    RayGain { sum: i128 },
}
