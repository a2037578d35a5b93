//! Coefficients inside arguments, whose parts have up to four digits of 32 bits.

use form_term::Coefficient;
use std::cmp::Ordering;
use std::test::Fail;

const M: i128 = i128::MAX;

/// Whether a coefficient of these parts has them.
fn has_its_parts(numerator: i128, denominator: u128) -> bool {
    let coefficient = Coefficient::new(numerator, denominator);
    coefficient.numerator() == numerator && coefficient.denominator() == denominator
}

#[test]
fn each_digit_and_the_sign_are_kept(rt: HostRuntime) -> Result<(), Fail> {
    assert!(rt; has_its_parts(0, 1));
    assert!(rt; has_its_parts(-1, 1 << 32));
    assert!(rt; has_its_parts(1 << 64, 1 << 96));
    assert!(rt;
        has_its_parts(
            -0x11111111_22222222_33333333_44444444,
            0x55555555_66666666_77777777_88888888
        )
    );
    assert!(rt; has_its_parts(M, u128::MAX));
    assert!(rt; has_its_parts(i128::MIN, 0));
    Ok(())
}

/// Whether the first of two coefficients, by their parts, comes first.
fn is_below(left: (i128, u128), right: (i128, u128)) -> bool {
    let left = Coefficient::new(left.0, left.1);
    let right = Coefficient::new(right.0, right.1);
    left.cmp(&right) == Ordering::Less && right.cmp(&left) == Ordering::Greater && left != right
}

#[test]
fn coefficients_go_by_their_values(rt: HostRuntime) -> Result<(), Fail> {
    assert!(rt; is_below((i128::MIN, 1), (-1 << 32, 1)));
    assert!(rt; is_below((-1, 1), (0, 1)));
    assert!(rt; is_below((0xffff_ffff, 1), (1 << 32, 1)));
    assert!(rt; is_below((1, 1 << 100), (M, 1)));
    assert!(rt; is_below((1, 0xffff_ffff), (1, 1 << 32)));
    assert!(rt; is_below((1, 1 << 96), (1, u128::MAX)));
    Ok(())
}
