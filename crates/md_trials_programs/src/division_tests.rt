//! Quotients and divisors by hand, of one machine word and of two.
use md_dict_division::{Divider, QuickDivider, binary_gcd, common_divisor};
use std::test::Fail;

// The gcd of 48 = 16 * 3 and 180 = 4 * 45 is 4 * 3, that of 2^63 and 6 is 2, and 0 is divided by all. The gcd of 2^a - 1 and 2^b - 1 is
// 2^c - 1, where c is the gcd of a and b: of 126 and 84 it is 42, and of 126 and 63 it is 63.
#[test]
fn divisors_of_two_numbers(rt: HostRuntime) {
    assert_eq!(rt; binary_gcd(48, 180), 12);
    assert_eq!(rt; binary_gcd(1 << 63, 6), 2);
    assert_eq!(rt; binary_gcd(0, 7), 7);
    assert_eq!(rt; common_divisor(-(3 << 70), 5 << 68), 1 << 68);
    assert_eq!(rt; common_divisor(9 << 64, 12), 12);
    assert_eq!(rt;
        common_divisor((1 << 126) - 1, (1 << 84) - 1),
        (1 << 42) - 1
    );
    assert_eq!(rt;
        common_divisor(1 - (1 << 126), (1 << 63) - 1),
        (1 << 63) - 1
    );
}

// 2^40 is no multiple of 3, 3 * 2^70 is 12 times 2^68, and 2^126 - 1 is 2^63 - 1 times 2^63 + 1.
#[test]
fn quotients_of_one_divider(rt: HostRuntime) {
    assert_eq!(rt; Divider::new(8).exact(-(1 << 40)), Some(-(1 << 37)));
    assert_eq!(rt; Divider::new(3).exact(1 << 40), None);
    assert_eq!(rt; Divider::new(12).exact(3 << 70), Some(1 << 68));
    assert_eq!(rt;
        Divider::new((1 << 63) + 1).exact(1 - (1 << 126)),
        Some(1 - (1 << 63))
    );
    assert_eq!(rt; Divider::new(12).common(30).value, 6);
}

// A quotient counts where it is at most 100: 1,200 over 12 does, 1,212 over 12 does not, and 1,201 has none.
#[test]
fn guessed_quotients(rt: HostRuntime) -> Result<(), Fail> {
    let Some(quick) = QuickDivider::new(&Divider::new(12), 100) else {
        return Err("no divider by 12".into());
    };
    if quick.guess.most > 100 {
        return Err("a greater limit".into());
    }
    assert_eq!(rt; quick.quotient(&quick.guess, 1200), Some(100));
    assert_eq!(rt; quick.quotient(&quick.guess, -1212), None);
    assert_eq!(rt; quick.quotient(&quick.guess, 1201), None);
    Ok(())
}
