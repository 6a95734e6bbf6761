use integer::{
    HIGHEST, LOWEST, absolute, add, clamp, contains, difference, divide, exclude, include,
    intersection, multiply, negate, range, saturate, subtract, union,
};

#[test]
fn worked_examples(rt: HostRuntime) {
    for (found, expected) in [
        (add(HIGHEST, 1), None),
        (subtract(LOWEST, -1), Some(-32767)),
        (multiply(LOWEST, -1), None),
        (negate(LOWEST), None),
        (absolute(-32767), Some(HIGHEST)),
        (include(65536, 15), Some(32768)),
        (exclude(-1, 0), Some(65534)),
        (range(0, 15), Some(65535)),
        (range(3, 2), None),
    ] {
        assert_eq!(rt; found, expected);
    }
    for (found, expected) in [
        (saturate(1 << 40), HIGHEST),
        (clamp(-9, -4, 4), -4),
        (union(65536, 5), 5),
        (intersection(-1, 12), 12),
        (difference(-1, 65534), 1),
    ] {
        assert_eq!(rt; found, expected);
    }
    for (found, expected) in [
        (divide(-3, 8), Some((-1, 5))),
        (divide(LOWEST, 1), Some((LOWEST, 0))),
        (divide(LOWEST, 32767), Some((-2, 32766))),
        (divide(HIGHEST, 8), Some((4095, 7))),
        (divide(7, 0), None),
    ] {
        assert_eq!(rt; found, expected);
    }
    assert_eq!(rt; contains(LOWEST, 15), Some(true));
    assert_eq!(rt; contains(-1, 16), None);
}
