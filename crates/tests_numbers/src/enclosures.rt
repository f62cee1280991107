//! Cases at the edges of the rounding rules, worked out from them by `cases/enclosure_cases.py`.
use crate::ends::{Ends, FAR, FULL, HALF, enc, ends};
use cg_enc::Enc;

static WHOLE_NUMBERS: [(u128, Ends); 15] = [
    (0, (0, 0, 0)),
    (1, (HALF, HALF, -62)),
    (2, (HALF, HALF, -61)),
    (3, (0x6000_0000_0000_0000, 0x6000_0000_0000_0000, -61)),
    (0x3fff_ffff_ffff_ffff, (FULL - 1, FULL - 1, -1)),
    (0x4000_0000_0000_0000, (HALF, HALF, 0)),
    (0x7fff_ffff_ffff_ffff, (FULL, FULL, 0)),
    (0x8000_0000_0000_0000, (HALF, HALF, 1)),
    (0x8000_0000_0000_0001, (HALF, HALF + 1, 1)),
    (0xffff_ffff_ffff_fffe, (FULL, FULL, 1)),
    (0xffff_ffff_ffff_ffff, (HALF - 1, HALF, 2)),
    (0x1_0000_0000_0000_0003, (HALF, HALF + 1, 2)),
    (
        0x1fff_ffff_ffff_ffff_ffff_ffff_ffff_ffff,
        (HALF - 1, HALF, 63),
    ),
    (0xffff_ffff_ffff_fffe_0000_0000_0000_0000, (FULL, FULL, 65)),
    (
        0xffff_ffff_ffff_ffff_ffff_ffff_ffff_ffff,
        (HALF - 1, HALF, 66),
    ),
];

#[test]
fn whole_numbers(rt: HostRuntime) {
    for (n, want) in &WHOLE_NUMBERS {
        assert_eq!(rt; ends(Enc::of_whole(*n)), *want, "of {n}");
    }
}

static BOUNDS: [(Ends, Ends); 9] = [
    ((1, 1, 0), (HALF, HALF, -62)),
    ((0, 1, 5), (0, HALF, -57)),
    ((0, FULL, 0), (0, FULL, 0)),
    (
        (3, 5, 4),
        (0x3000_0000_0000_0000, 0x5000_0000_0000_0000, -56),
    ),
    ((HALF - 1, HALF - 1, 0), (FULL - 1, FULL - 1, -1)),
    ((HALF - 1, HALF, 9), (HALF - 1, HALF, 9)),
    ((FULL, FULL, FAR), (FULL, FULL, FAR)),
    ((1, 1, -FAR), (HALF, HALF, -0x1000_0000_0000_003e)),
    (
        (0x1fff_ffff_ffff_ffff, 0x2000_0000_0000_0000, -62),
        (HALF - 2, HALF, -63),
    ),
];

#[test]
fn bounds(rt: HostRuntime) {
    for (numbers, want) in &BOUNDS {
        let (lo, hi, exp) = *numbers;
        assert!(rt; lo <= hi && 1 <= hi && hi <= FULL && -FAR <= exp && exp <= FAR);
        assert_eq!(rt;
            ends(Enc::of_bounds(lo, hi, exp)),
            *want,
            "of {lo} {hi} {exp}"
        );
    }
}

static SUMS: [(Ends, Ends, Ends); 16] = [
    (
        (0, 0, 0),
        (0x5555_5555_5555_5555, 0x5555_5555_5555_5556, -64),
        (0x5555_5555_5555_5555, 0x5555_5555_5555_5556, -64),
    ),
    (
        (0x5555_5555_5555_5555, 0x5555_5555_5555_5556, -64),
        (0, 0, 0),
        (0x5555_5555_5555_5555, 0x5555_5555_5555_5556, -64),
    ),
    ((HALF, HALF, -62), (HALF, HALF, -62), (HALF, HALF, -61)),
    (
        (HALF, HALF, -62),
        (0x5555_5555_5555_5555, 0x5555_5555_5555_5556, -64),
        (0x5555_5555_5555_5555, 0x5555_5555_5555_5556, -62),
    ),
    (
        (0x5555_5555_5555_5555, 0x5555_5555_5555_5556, -64),
        (HALF, HALF, -62),
        (0x5555_5555_5555_5555, 0x5555_5555_5555_5556, -62),
    ),
    (
        (HALF, HALF, 0),
        (HALF, FULL, -1),
        (0x3000_0000_0000_0000, HALF, 1),
    ),
    ((FULL, FULL, 0), (FULL, FULL, 0), (FULL, FULL, 1)),
    (
        (FULL, FULL, 0),
        (HALF + 1, HALF + 1, -1),
        (0x4fff_ffff_ffff_ffff, 0x5000_0000_0000_0000, 1),
    ),
    (
        (HALF, HALF, 3),
        (FULL - 1, FULL, -59),
        (HALF + 1, HALF + 2, 3),
    ),
    ((HALF, HALF, 3), (FULL - 1, FULL, -60), (HALF, HALF + 1, 3)),
    ((HALF, HALF, 3), (FULL, FULL, -61), (HALF, HALF + 1, 3)),
    ((FULL, FULL, 3), (HALF, HALF, -97), (HALF - 1, HALF, 4)),
    (
        (HALF, HALF, -4000000000),
        (HALF, HALF, 4000000000),
        (HALF, HALF + 1, 4000000000),
    ),
    ((HALF, HALF, FAR), (HALF, HALF, -FAR), (HALF, HALF + 1, FAR)),
    ((0, FULL, 7), (0, FULL, 7), (0, FULL, 8)),
    (
        (0, FULL, 7),
        (FULL, FULL, 6),
        (0x1fff_ffff_ffff_ffff, 0x6000_0000_0000_0000, 8),
    ),
];

#[test]
fn sums(rt: HostRuntime) {
    for (a, b, want) in &SUMS {
        let result = enc(&rt, *a).plus(&enc(&rt, *b));
        assert_eq!(rt; ends(result), *want, "of {a:?} and {b:?}");
    }
}

static PRODUCTS: [(Ends, Ends, Ends); 11] = [
    ((0, 0, 0), (HALF, HALF, -62), (0, 0, 0)),
    ((HALF, HALF, -62), (0, 0, 0), (0, 0, 0)),
    (
        (HALF, HALF, -62),
        (0x5555_5555_5555_5555, 0x5555_5555_5555_5556, -64),
        (0x5555_5555_5555_5555, 0x5555_5555_5555_5556, -64),
    ),
    (
        (0x5555_5555_5555_5555, 0x5555_5555_5555_5556, -64),
        (0x5555_5555_5555_5555, 0x5555_5555_5555_5556, -64),
        (0x71c7_1c71_c71c_71c6, 0x71c7_1c71_c71c_71c9, -66),
    ),
    ((FULL, FULL, 0), (FULL, FULL, 0), (FULL - 1, FULL, 63)),
    (
        (HALF + 1, HALF + 1, 0),
        (FULL - 1, FULL - 1, 0),
        (HALF - 1, HALF, 63),
    ),
    (
        (HALF + 1, HALF + 1, 0),
        (HALF + 1, HALF + 1, 0),
        (HALF + 2, 0x4000_0000_0000_0003, 62),
    ),
    ((1, HALF, 0), (1, FULL, 0), (0, FULL, 62)),
    ((0, FULL, 7), (HALF, HALF, -62), (0, FULL, 7)),
    (
        (HALF, HALF, -FAR),
        (HALF, HALF, -FAR),
        (HALF, HALF, -0x1fff_ffff_ffff_ffc2),
    ),
    (
        (FULL, FULL, FAR),
        (HALF, FULL, FAR),
        (HALF - 1, FULL, 0x2000_0000_0000_003f),
    ),
];

#[test]
fn products(rt: HostRuntime) {
    for (a, b, want) in &PRODUCTS {
        let result = enc(&rt, *a).times(&enc(&rt, *b));
        assert_eq!(rt; ends(result), *want, "of {a:?} and {b:?}");
    }
}

static QUOTIENTS: [(Ends, Ends, Ends); 12] = [
    (
        (0, 0, 0),
        (0x6000_0000_0000_0000, 0x6000_0000_0000_0000, -61),
        (0, 0, 0),
    ),
    ((HALF, HALF, -62), (HALF, HALF, -62), (HALF, HALF, -62)),
    (
        (HALF, HALF, -62),
        (0x6000_0000_0000_0000, 0x6000_0000_0000_0000, -61),
        (0x5555_5555_5555_5555, 0x5555_5555_5555_5556, -64),
    ),
    (
        (HALF, HALF, -61),
        (0x5555_5555_5555_5555, 0x5555_5555_5555_5556, -64),
        (0x5fff_ffff_ffff_ffff, 0x6000_0000_0000_0001, -60),
    ),
    ((FULL, FULL, 0), (1, HALF, 0), (1, FULL, 0)),
    ((HALF, HALF, 0), (1, HALF, 0), (1, HALF, 0)),
    ((HALF, HALF, 0), (2, HALF, 0), (2, HALF, -1)),
    ((HALF, HALF, 0), (FULL, FULL, 0), (HALF, HALF + 1, -63)),
    ((FULL, FULL, 5), (HALF, HALF, -5), (FULL, FULL, -52)),
    (
        (HALF, FULL, 0),
        (HALF - 1, FULL, 0),
        (0x1000_0000_0000_0000, HALF + 1, -61),
    ),
    (
        (0, FULL, 7),
        (0x6000_0000_0000_0000, 0x6000_0000_0000_0000, -61),
        (0, 0x5555_5555_5555_5555, 6),
    ),
    (
        (HALF, HALF, -FAR),
        (HALF, FULL, FAR),
        (0x2000_0000_0000_0000, HALF, -0x2000_0000_0000_003e),
    ),
];

#[test]
fn quotients(rt: HostRuntime) {
    for (a, b, want) in &QUOTIENTS {
        let divisor = enc(&rt, *b);
        assert!(rt; divisor.is_firm());
        assert_eq!(rt;
            ends(enc(&rt, *a).over(&divisor)),
            *want,
            "of {a:?} and {b:?}"
        );
    }
}

static ROOTS: [(Ends, Ends); 15] = [
    ((0, 0, 0), (0, 0, 0)),
    ((HALF, HALF, -62), (HALF, HALF, -62)),
    (
        (HALF, HALF, -61),
        (0x5a82_7999_fcef_3242, 0x5a82_7999_fcef_3243, -62),
    ),
    ((HALF, HALF, 0), (HALF, HALF, -31)),
    (
        (HALF, HALF, 1),
        (0x5a82_7999_fcef_3242, 0x5a82_7999_fcef_3243, -31),
    ),
    (
        (HALF, HALF, -1),
        (0x5a82_7999_fcef_3242, 0x5a82_7999_fcef_3243, -32),
    ),
    ((HALF, HALF, -2), (HALF, HALF, -32)),
    (
        (HALF, HALF, -3),
        (0x5a82_7999_fcef_3242, 0x5a82_7999_fcef_3243, -33),
    ),
    (
        (FULL, FULL, 0),
        (0x5a82_7999_fcef_3241, 0x5a82_7999_fcef_3242, -31),
    ),
    ((FULL, FULL, 1), (HALF - 1, HALF, -30)),
    ((FULL, FULL, -1), (HALF - 1, HALF, -31)),
    ((0, FULL, 7), (0, HALF, -27)),
    (
        (HALF, HALF + 1, FAR),
        (HALF, HALF + 1, 0x7ff_ffff_ffff_ffe1),
    ),
    (
        (HALF, HALF + 1, -FAR + 1),
        (
            0x5a82_7999_fcef_3242,
            0x5a82_7999_fcef_3243,
            -0x800_0000_0000_001f,
        ),
    ),
    (
        (0x5555_5555_5555_5555, 0x5555_5555_5555_5556, -64),
        (0x49e6_9d16_40cc_7134, 0x49e6_9d16_40cc_7135, -63),
    ),
];

#[test]
fn roots(rt: HostRuntime) {
    for (a, want) in &ROOTS {
        assert_eq!(rt; ends(enc(&rt, *a).root()), *want, "of {a:?}");
    }
}

static MARGINS: [(Ends, Ends); 7] = [
    ((0, 0, 0), (0, 0, 0)),
    ((HALF, HALF, -62), (HALF - 1, HALF + 1, -62)),
    ((HALF, HALF + 1, -FAR), (HALF - 1, HALF + 2, -FAR)),
    ((1, HALF, 0), (0, HALF + 1, 0)),
    ((0, FULL, 7), (0, HALF, 8)),
    ((FULL - 1, FULL - 1, 0), (FULL - 2, FULL, 0)),
    ((FULL, FULL, FAR), (HALF - 1, HALF, FAR + 1)),
];

#[test]
fn margins(rt: HostRuntime) {
    for (a, want) in &MARGINS {
        assert_eq!(rt; ends(enc(&rt, *a).margin()), *want, "of {a:?}");
    }
}

static SHARES: [(Ends, Ends, (u32, u32)); 20] = [
    ((0, 0, 0), (HALF, HALF, -62), (0, 0)),
    ((HALF, HALF, -62), (HALF, HALF, -62), (1000000, 1000000)),
    (
        (HALF, HALF, -62),
        (0x6000_0000_0000_0000, 0x6000_0000_0000_0000, -61),
        (333333, 333334),
    ),
    (
        (HALF, HALF, -61),
        (0x6000_0000_0000_0000, 0x6000_0000_0000_0000, -61),
        (666666, 666667),
    ),
    (
        (0x6000_0000_0000_0000, 0x6000_0000_0000_0000, -61),
        (HALF, HALF, -61),
        (1000000, 1000000),
    ),
    (
        (HALF, HALF, -62),
        (0x7a12_0000_0000_0000, 0x7a12_0000_0000_0000, -43),
        (1, 1),
    ),
    (
        (HALF, HALF, -62),
        (0x7a12_0800_0000_0000, 0x7a12_0800_0000_0000, -43),
        (0, 1),
    ),
    ((HALF, FULL, 0), (HALF, FULL, 0), (500000, 1000000)),
    ((HALF, FULL, 0), (HALF, FULL, 2), (125000, 500000)),
    ((0, FULL, 7), (HALF, HALF, 7), (0, 1000000)),
    ((0, FULL, 7), (HALF, HALF, 107), (0, 1)),
    ((0, FULL, 7), (HALF, HALF, -93), (0, 1000000)),
    ((HALF, HALF, 0), (1, HALF, 62), (0, 1000000)),
    ((HALF, HALF, 0), (1, HALF, 83), (0, 1)),
    ((1, HALF, 0), (HALF, HALF, -44), (3, 1000000)),
    ((1, HALF, 0), (HALF, HALF, -62), (1000000, 1000000)),
    ((HALF, HALF, 0), (HALF, HALF, -64), (1000000, 1000000)),
    ((HALF, HALF, FAR), (HALF, HALF, -FAR), (1000000, 1000000)),
    ((HALF, HALF, -FAR), (HALF, HALF, FAR), (0, 1)),
    ((HALF, HALF, 0), (HALF, HALF, 4000000000), (0, 1)),
];

#[test]
fn shares(rt: HostRuntime) {
    for (part, whole, want) in &SHARES {
        let den = enc(&rt, *whole);
        assert!(rt; den.is_firm());
        assert_eq!(rt;
            Enc::ppm(&enc(&rt, *part), &den),
            *want,
            "of {part:?} and {whole:?}"
        );
    }
}

#[test]
fn zero_and_firm(rt: HostRuntime) {
    for (a, zero, firm) in [
        ((0, 0, 0), true, false),
        ((0, HALF, 3), false, false),
        ((1, HALF, -3), false, true),
    ] {
        assert_eq!(rt; enc(&rt, a).is_zero(), zero, "of {a:?}");
        assert_eq!(rt; enc(&rt, a).is_firm(), firm, "of {a:?}");
    }
}
