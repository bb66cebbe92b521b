//! The draws that a number stands for.
ghost use Rattle.std.specs.Prelude.{◌≡◌, ◌<◌};
ghost use Rattle.md_gen.specs.Draws.{draw_at};

const MODULUS: u32 = 65_537;

/// The draw at a place. The number itself, cut down, is at the place 0.
pub(crate) fn draw(number: u32, place: u32) -> u32
    ensures value { result ≡ draw_at number place }
    ensures below { result < 65537 }
{
    let mut draw = number % MODULUS;
    for _step in 0..place {
        draw = (75 * draw + 74) % MODULUS;
    }
    draw
}
