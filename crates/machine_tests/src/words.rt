// Words as C's integers, with values from the standard's rules.

use bm_alu::{Binary, Unary, combine, transform};
use lu_base::Trap;
use std::test::Fail;

#[test]
fn operations_are_those_of_c(rt: HostRuntime) -> Result<(), Fail> {
    let minus = |n: u64| 0u64.wrapping_sub(n);
    let least = 1 << 63;
    let cases = [
        (Binary::DivideSigned, minus(7), 2, Ok(minus(3))),
        (Binary::RemainderSigned, minus(7), 2, Ok(minus(1))),
        (Binary::DivideSigned, least, minus(1), Ok(least)),
        (Binary::RemainderSigned, least, minus(1), Ok(0)),
        (Binary::DivideUnsigned, 1, 0, Err(Trap::DivZero)),
        (Binary::ShiftRightSigned(32), minus(8), 1, Ok(minus(4))),
        (Binary::ShiftLeft(32), 1, 32, Err(Trap::BadShift)),
        (Binary::ShiftLeft(64), 1, 32, Ok(1 << 32)),
        (Binary::ShiftLeft(16), 1, 1, Err(Trap::BadCode)),
        (Binary::LessSigned, minus(1), 1, Ok(1)),
        (Binary::LessUnsigned, minus(1), 1, Ok(0)),
        (Binary::Index(4, 8), 100, 3, Ok(124)),
        (Binary::Index(4, 8), 100, 4, Err(Trap::BadIndex)),
        (Binary::IndexEnd(4, 8), 100, 4, Ok(132)),
    ];
    for (operation, a, b, want) in cases {
        assert_eq!(rt; combine(operation, a, b), want);
    }
    assert_eq!(rt; transform(Unary::Normalize(0), 200), Ok(minus(56)));
    assert_eq!(rt; transform(Unary::Normalize(1), 300), Ok(44));
    assert_eq!(rt; transform(Unary::Normalize(8), 0), Err(Trap::BadCode));
    Ok(())
}
