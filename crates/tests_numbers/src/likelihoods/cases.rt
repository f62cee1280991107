//! Cases worked out from the rules of the recipe by `cases/likelihood_cases.py`.
use crate::ends::Ends;

// A dating in a table: years, and thousandths of a year.
#[derive(Clone, Copy, Debug)]
pub(super) enum Given {
    Free,
    Exact(i64),
    Normal(i64, i64),
    Carbon(i64, i64),
}

// What `covers` is to answer in a table.
#[derive(Clone, Copy, Debug, PartialEq, Eq)]
pub(super) enum Want {
    Covered,
    NoCurve,
    Uncovered(i32),
    Far(i32),
}

// The text of a curve or none, the older and the younger year, and the dating.
pub(super) type Asked = (&'static [u8], (i64, i64), Given);

// No curve.
const NONE: &[u8] = b"";

const FLAT: &[u8] = b"2010,2500,0\n2000,2500,0";

const BROAD: &[u8] = b"2010,2500,20\n2000,2500,20";

const LINE: &[u8] = b"2002,2010,0\n2000,1990,0.5";

const EARLY: &[u8] = b"2010,2000,20\n2000,2000,20";

const SHARP: &[u8] = b"2010,2000,0\n2000,2000,0";

const WIDE: &[u8] = b"3000,1990,25\n2000,10,7.5";

const BELOW: &[u8] = b"2010,-1000,5\n2000,-1000.5,5";

const ABOVE: &[u8] = b"2010,59000,300\n2000,58900,310.125";

const LONG: &[u8] = b"2600,2500,15\n2000,2000,10";

pub(super) static COVERED: [(Asked, Want); 22] = [
    ((NONE, (2002, 2000), Given::Free), Want::Covered),
    ((NONE, (60000, 59999), Given::Exact(0)), Want::Covered),
    (
        (NONE, (2002, 2000), Given::Normal(2001, 5000)),
        Want::Covered,
    ),
    (
        (NONE, (2002, 2000), Given::Carbon(2_500_000, 30000)),
        Want::NoCurve,
    ),
    (
        (FLAT, (2010, 2000), Given::Carbon(2_500_000, 30000)),
        Want::Covered,
    ),
    (
        (FLAT, (2011, 2009), Given::Carbon(2_500_000, 30000)),
        Want::Uncovered(2011),
    ),
    (
        (FLAT, (2001, 1998), Given::Carbon(2_500_000, 30000)),
        Want::Uncovered(1999),
    ),
    (
        (FLAT, (2011, 2009), Given::Carbon(60_000_000, 30000)),
        Want::Uncovered(2011),
    ),
    (
        (FLAT, (2000, 1999), Given::Carbon(60_000_000, 30000)),
        Want::Far(2000),
    ),
    (
        (SHARP, (2005, 2000), Given::Carbon(18_384_000, 1000)),
        Want::Covered,
    ),
    (
        (SHARP, (2005, 2000), Given::Carbon(18_384_001, 1000)),
        Want::Far(2005),
    ),
    (
        (BELOW, (2010, 2010), Given::Carbon(15_384_000, 1000)),
        Want::Covered,
    ),
    (
        (BELOW, (2010, 2009), Given::Carbon(15_384_000, 1000)),
        Want::Far(2009),
    ),
    (
        (NONE, (3616, 3616), Given::Normal(20000, 5000)),
        Want::Covered,
    ),
    (
        (NONE, (3616, 3615), Given::Normal(20000, 5000)),
        Want::Far(3615),
    ),
    (
        (NONE, (18385, 18384), Given::Normal(2001, 1000)),
        Want::Covered,
    ),
    (
        (NONE, (18386, 18385), Given::Normal(2001, 1000)),
        Want::Far(18386),
    ),
    (
        (WIDE, (2500, 2500), Given::Carbon(17_384_000, 1000)),
        Want::Covered,
    ),
    (
        (WIDE, (2500, 2500), Given::Carbon(17_384_001, 1000)),
        Want::Far(2500),
    ),
    (
        (WIDE, (2501, 2499), Given::Carbon(17_384_000, 1000)),
        Want::Far(2499),
    ),
    (
        (FLAT, (2010, 2000), Given::Carbon(-999_999_999_999_999, 0)),
        Want::Far(2010),
    ),
    (
        (
            FLAT,
            (2010, 2000),
            Given::Carbon(2_500_000, 999_999_999_999_999),
        ),
        Want::Covered,
    ),
];

// The cell that is looked at, and its entry.
pub(super) static WEIGHED: [(Asked, usize, Ends); 34] = [
    (
        (NONE, (2002, 2000), Given::Free),
        0,
        (0x4000_0000_0000_0000, 0x4000_0000_0000_0000, -62),
    ),
    (
        (NONE, (2002, 2000), Given::Free),
        1,
        (0x4000_0000_0000_0000, 0x4000_0000_0000_0000, -62),
    ),
    (
        (NONE, (2002, 2000), Given::Free),
        2,
        (0x4000_0000_0000_0000, 0x4000_0000_0000_0000, -62),
    ),
    ((NONE, (2002, 2000), Given::Exact(2001)), 0, (0, 0, 0)),
    (
        (NONE, (2002, 2000), Given::Exact(2001)),
        1,
        (0x4000_0000_0000_0000, 0x4000_0000_0000_0000, -62),
    ),
    ((NONE, (2002, 2000), Given::Exact(2001)), 2, (0, 0, 0)),
    ((NONE, (2002, 2000), Given::Exact(1999)), 0, (0, 0, 0)),
    ((NONE, (2002, 2000), Given::Exact(1999)), 1, (0, 0, 0)),
    ((NONE, (2002, 2000), Given::Exact(1999)), 2, (0, 0, 0)),
    (
        (FLAT, (2010, 2009), Given::Carbon(2_500_000, 30000)),
        0,
        (0x45e7_b272_f608_770d, 0x45e7_b272_f608_7710, -77),
    ),
    (
        (FLAT, (2010, 2009), Given::Carbon(2_500_000, 30000)),
        1,
        (0x45e7_b272_f608_770d, 0x45e7_b272_f608_7710, -77),
    ),
    (
        (FLAT, (2010, 2010), Given::Carbon(2_490_125, 30500)),
        0,
        (0x413f_7bf0_cba9_ab0f, 0x413f_7bf0_cba9_ab14, -77),
    ),
    (
        (BROAD, (2010, 2009), Given::Carbon(2_490_000, 30000)),
        0,
        (0x6ff0_97e1_3f42_2ea0, 0x6ff0_97e1_3f42_2ea5, -78),
    ),
    (
        (BROAD, (2010, 2009), Given::Carbon(2_490_000, 30000)),
        1,
        (0x6ff0_97e1_3f42_2ea0, 0x6ff0_97e1_3f42_2ea6, -78),
    ),
    (
        (LINE, (2002, 2000), Given::Carbon(2_000_000, 30000)),
        0,
        (0x4220_9aa5_d512_cb5d, 0x4220_9aa5_d512_cb62, -77),
    ),
    (
        (LINE, (2002, 2000), Given::Carbon(2_000_000, 30000)),
        1,
        (0x45e7_1362_6dd5_3a3f, 0x45e7_1362_6dd5_3a43, -77),
    ),
    (
        (LINE, (2002, 2000), Given::Carbon(2_000_000, 30000)),
        2,
        (0x421e_83b7_e3fb_b6c4, 0x421e_83b7_e3fb_b6c8, -77),
    ),
    (
        (NONE, (2010, 1995), Given::Normal(2000, 5000)),
        0,
        (0x7187_07e0_db97_708e, 0x7187_07e0_db97_70ae, -78),
    ),
    (
        (NONE, (2010, 1995), Given::Normal(2000, 5000)),
        9,
        (0x66c8_01fe_2155_f52a, 0x66c8_01fe_2155_f52f, -75),
    ),
    (
        (NONE, (2010, 1995), Given::Normal(2000, 5000)),
        10,
        (0x68db_8bac_710c_b294, 0x68db_8bac_710c_b298, -75),
    ),
    (
        (NONE, (2010, 1995), Given::Normal(2000, 5000)),
        15,
        (0x7f32_dde9_761e_90ef, 0x7f32_dde9_761e_90fa, -76),
    ),
    (
        (NONE, (2010, 2010), Given::Normal(2000, 10_000_000)),
        0,
        (0x6b5f_c6e6_3a7e_da11, 0x6b5f_c6e6_3a7e_da17, -86),
    ),
    (
        (EARLY, (2010, 2010), Given::Carbon(17_000_000, 1000)),
        0,
        (0x60b4_9233_4808_844a, 0x60b4_9233_48a1_58a6, -404_823),
    ),
    (
        (SHARP, (2010, 2010), Given::Carbon(18_384_000, 1000)),
        0,
        (0x5761_4aa3_bec6_08c4, 0x5761_4aa4_18d4_271d, -193_635_323),
    ),
    (
        (WIDE, (2501, 2499), Given::Carbon(17_000_000, 30000)),
        0,
        (0x50ce_de13_bfd1_eabb, 0x50ce_de13_bfef_edd0, -158_599),
    ),
    (
        (WIDE, (2501, 2499), Given::Carbon(17_000_000, 30000)),
        1,
        (0x5fd3_6ea5_8dd6_c242, 0x5fd3_6ea5_8dfe_a0a9, -158_716),
    ),
    (
        (WIDE, (2501, 2499), Given::Carbon(17_000_000, 30000)),
        2,
        (0x6edf_808d_3aa5_1338, 0x6edf_808d_3ae2_800c, -158_833),
    ),
    (
        (WIDE, (2001, 2001), Given::Carbon(10000, 10_000_000)),
        0,
        (0x6b5f_c84a_9d50_cc47, 0x6b5f_c84a_9d50_cc4d, -86),
    ),
    (
        (BELOW, (2001, 2001), Given::Carbon(-2_000_000, 50000)),
        0,
        (0x7c54_f1b6_ec62_808e, 0x7c54_f1b6_ec62_9705, -364),
    ),
    (
        (ABOVE, (2009, 2009), Given::Carbon(60_000_000, 300_000)),
        0,
        (0x4afe_6a5d_b663_a964, 0x4afe_6a5d_b663_a9a3, -85),
    ),
    (
        (LONG, (2511, 2000), Given::Carbon(2_300_000, 30000)),
        0,
        (0x62e7_d89d_f6dd_6843, 0x62e7_d89d_f6dd_68e1, -88),
    ),
    (
        (LONG, (2511, 2000), Given::Carbon(2_300_000, 30000)),
        255,
        (0x72e6_0d8a_250f_d681, 0x72e6_0d8a_250f_d700, -83),
    ),
    (
        (LONG, (2511, 2000), Given::Carbon(2_300_000, 30000)),
        272,
        (0x7f77_129e_16d7_3d69, 0x7f77_129e_16d7_3e37, -85),
    ),
    (
        (LONG, (2511, 2000), Given::Carbon(2_300_000, 30000)),
        511,
        (0x4609_7d20_a39c_aa40, 0x4609_7d20_a39c_ac37, -142),
    ),
];
