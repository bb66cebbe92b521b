//! Comparisons by the kind of a row, and of pairs.
ghost use Rattle.std.specs.Prelude.{◌≤ℤ◌, ◌<ℤ◌, ◌↔◌, pos, IsTrue};
ghost use Rattle.md_lp.specs.Program.{Keeps};
ghost use Rattle.md_math.specs.LexOrder.{IsPairNonNegative};
ghost use Rattle.md_cert.specs.Pairs.{IsPairFor, IsFaceFor, RayKeeps};

use md_lp::RowKind;

// Whether a left side keeps to a right side.
pub fn keeps(kind: RowKind, left: i128, right: i128) -> bool
    ensures { IsTrue result ↔ Keeps kind left right }
{
    match kind {
        RowKind::AtMost => left <= right,
        RowKind::Exact => left == right,
    }
}

// Whether a pair is at least 0, the first number first.
pub fn is_lex_nonneg(face: i128, main: i128) -> bool
    ensures { IsTrue result ↔ IsPairNonNegative face main }
{
    face > 0 || (face == 0 && main >= 0)
}

// Whether a pair may stand at a row.
pub fn is_pair_for(kind: RowKind, face: i128, main: i128) -> bool
    ensures { IsTrue result ↔ IsPairFor kind face main }
{
    match kind {
        RowKind::AtMost => is_lex_nonneg(face, main),
        RowKind::Exact => true,
    }
}

// Whether a face multiplier may stand alone at a row.
pub fn is_face_for(kind: RowKind, face: i128) -> bool
    ensures { IsTrue result ↔ IsFaceFor kind face }
{
    match kind {
        RowKind::AtMost => face >= 0,
        RowKind::Exact => true,
    }
}

// Whether a ray may give a row this sum.
pub fn ray_keeps(kind: RowKind, sum: i128) -> bool
    ensures { IsTrue result ↔ RayKeeps kind sum }
{
    match kind {
        RowKind::AtMost => sum <= 0,
        RowKind::Exact => sum == 0,
    }
}
