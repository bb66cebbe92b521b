//! Numbers of 128 bits, which no file has.
use md_num::{Frac, NoMemory, Nums, write_whole};
use std::alloc::Global;
use std::test::Fail;

static NUMBERS: [i128; 4] = [
    -7,
    -1208925819614629174706176,
    170141183460469231731687303715884105727,
    -170141183460469231731687303715884105727,
];

const TEXT: &[u8] =
    b"at -7-1208925819614629174706176170141183460469231731687303715884105727-170141183460469231731687303715884105727";

// The numbers, one pushed after the other.
fn pushed(alloc: Global) -> Result<Nums, NoMemory> {
    let mut nums = Nums::new(alloc);
    for number in &NUMBERS {
        nums.push(*number)?;
    }
    Ok(nums)
}

// A text with the numbers behind what is there.
fn written(alloc: Global, nums: &Nums) -> Result<Vec<u8>, Fail> {
    let mut text = Vec::from_slice(alloc, b"at ")?;
    for number in nums.as_slice() {
        write_whole(*number, &mut text)?;
    }
    Ok(text)
}

#[test]
fn long_numbers_are_held_and_written(rt: HostRuntime) -> Result<(), Fail> {
    let alloc = rt.alloc();
    let nums = pushed(alloc)?;
    assert!(rt; nums.as_slice() == NUMBERS.as_slice());
    assert!(rt; written(alloc, &nums)?.as_slice() == TEXT);
    Ok(())
}

// A fraction, another one, and whether the first is at most the other. The last two are 1 and the fraction 1 / (n - 1), and 1 and
// 1 / (n - 2), for the greatest number n of 128 bits.
static PAIRS: [(i128, i128, i128, i128, bool); 5] = [
    (1, 3, 1, 2, true),
    (1, 2, 3, 7, false),
    (-1, 2, -3, 7, true),
    (-2, 1, 0, 1, true),
    (
        170141183460469231731687303715884105727,
        170141183460469231731687303715884105726,
        170141183460469231731687303715884105726,
        170141183460469231731687303715884105725,
        true,
    ),
];

#[test]
fn fractions_are_compared(rt: HostRuntime) -> Result<(), Fail> {
    for (num, den, other_num, other_den, expected) in PAIRS {
        let other = Frac {
            num: other_num,
            den: other_den,
        };
        if den < 1 || other_den < 1 {
            return Err("a pair with no positive denominator")?;
        }
        assert_eq!(rt; Frac { num, den }.at_most(&other), expected);
    }
    Ok(())
}
