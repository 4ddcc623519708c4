// The split on known figures.
use crate::answers::number_of;
use split::split;
use std::test::Fail;

/// Amount, weights before the list, whole, weights, parts.
const PLAIN: [(i32, u32, u32, [u32; 4], [i64; 4]); 9] = [
    (100, 0, 3, [1, 1, 1, 0], [33, 33, 34, 0]),
    (-100, 0, 3, [1, 1, 1, 0], [-34, -33, -33, 0]),
    (
        398,
        0,
        24_225,
        [10_710, 10_455, 3_060, 0],
        [175, 172, 51, 0],
    ),
    (100, 0, 7, [1, 2, 0, 0], [14, 28, 0, 0]),
    (100, 3, 7, [2, 1, 1, 0], [29, 14, 15, 0]),
    (0, 0, 0, [0, 0, 0, 0], [0, 0, 0, 0]),
    (0, 0, 3, [1, 1, 1, 0], [0, 0, 0, 0]),
    (
        i32::MIN,
        0,
        u32::MAX,
        [1, u32::MAX - 1, 0, 0],
        [-1, -2_147_483_647, 0, 0],
    ),
    (
        i32::MAX,
        0,
        u32::MAX,
        [u32::MAX, 0, 0, 0],
        [2_147_483_647, 0, 0, 0],
    ),
];

/// Amount, whole, weights, parts.
const SIGNED: [(i32, u32, [i32; 3], [i64; 3]); 2] = [
    (
        1_000_000_000,
        900,
        [-100, 1_000, 0],
        [-111_111_112, 1_111_111_112, 0],
    ),
    (
        i32::MIN,
        1,
        [i32::MIN, i32::MAX, 2],
        [
            4_611_686_018_427_387_904,
            -4_611_686_016_279_904_256,
            -4_294_967_296,
        ],
    ),
];

#[test]
fn plain_weights(rt: HostRuntime) -> Result<(), Fail> {
    for (amount, before, whole, weights, expected) in PLAIN {
        let mut parts = [7i64; 4];
        split(amount, before, whole, &weights, &mut parts)?;
        assert_eq!(rt; parts, expected);
    }
    Ok(())
}

#[test]
fn weights_of_either_sign(rt: HostRuntime) -> Result<(), Fail> {
    for (amount, whole, weights, expected) in SIGNED {
        let mut parts = [7i64; 3];
        split(amount, 0, whole, &weights, &mut parts)?;
        assert_eq!(rt; parts, expected);
    }
    Ok(())
}

#[test]
fn no_weight_for_an_amount(rt: HostRuntime) {
    let mut parts = [7i64; 2];
    let answer = split(5, 0, 0, &[0u32, 0], &mut parts);
    assert_eq!(rt; number_of(answer), 22);
    assert_eq!(rt; parts, [7i64, 7]);
}

#[test]
fn lists_of_different_lengths(rt: HostRuntime) {
    let mut parts = [7i64; 3];
    let longer = split(100, 0, 2, &[1u32, 1], &mut parts);
    assert_eq!(rt; number_of(longer), 9);
    let shorter = split(100, 0, 2, &[1u32, 1, 0, 0], &mut parts);
    assert_eq!(rt; number_of(shorter), 9);
    assert_eq!(rt; parts, [7i64, 7, 7]);
}
