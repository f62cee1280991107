use cg_root::{root_down, root_up};

// A number, the root below it and the one above.
static ROOTS: [(u128, u64, u64); 12] = [
    (0, 0, 0),
    (1, 1, 1),
    (2, 1, 2),
    (3, 1, 2),
    (4, 2, 2),
    (99, 9, 10),
    (100, 10, 10),
    (101, 10, 11),
    (0x4000_0000_0000_0000, 0x8000_0000, 0x8000_0000),
    (0x4000_0000_0000_0001, 0x8000_0000, 0x8000_0001),
    // the square of 2^63 - 1, and the greatest number that has a root here
    (
        0x3fff_ffff_ffff_ffff_0000_0000_0000_0001,
        0x7fff_ffff_ffff_ffff,
        0x7fff_ffff_ffff_ffff,
    ),
    (
        0x3fff_ffff_ffff_ffff_ffff_ffff_ffff_ffff,
        0x7fff_ffff_ffff_ffff,
        0x8000_0000_0000_0000,
    ),
];

#[test]
fn roots_at_squares_and_beside_them(rt: HostRuntime) {
    for (n, down, up) in &ROOTS {
        assert!(rt; *n < 1 << 126);
        assert_eq!(rt; root_down(*n), *down, "below {n}");
        assert_eq!(rt; root_up(*n), *up, "above {n}");
    }
}
