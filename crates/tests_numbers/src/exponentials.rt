//! Cases worked out from the rules of the recipe by `cases/exponential_cases.py`.
use crate::ends::{Ends, ends};
use cg_exp::exp_neg;

type Case = ((u128, u128), Ends);

// p and q, and the three numbers of the enclosure.
static CASES: [Case; 25] = [
    ((0, 1), (0x4000_0000_0000_0000, 0x4000_0000_0000_0000, -62)),
    (
        (0, 0xffff_ffff_ffff_ffff_ffff_ffff),
        (0x4000_0000_0000_0000, 0x4000_0000_0000_0000, -62),
    ),
    (
        (1, 0xffff_ffff_ffff_ffff_ffff_ffff),
        (0x3fff_ffff_ffff_ffff, 0x4000_0000_0000_0000, -62),
    ),
    ((1, 4), (0x63af_be7a_b208_2ba0, 0x63af_be7a_b208_2ba2, -63)),
    ((1, 3), (0x5bb7_4c48_bcba_9341, 0x5bb7_4c48_bcba_9349, -63)),
    ((1, 2), (0x4da2_cbf1_be58_27f7, 0x4da2_cbf1_be58_27fb, -63)),
    ((1, 1), (0x5e2d_58d8_b3bc_df13, 0x5e2d_58d8_b3bc_df1e, -64)),
    ((3, 2), (0x723e_1dc9_2d70_7581, 0x723e_1dc9_2d70_7598, -65)),
    ((10, 1), (0x5f35_e6d5_91f2_6a17, 0x5f35_e6d5_91f2_6ad9, -77)),
    (
        (100, 1),
        (0x6a30_7c53_8abd_6f29, 0x6a30_7c53_8abd_7655, -207),
    ),
    (
        (268435456, 1),
        (0x71c6_4099_0e90_0ad0, 0x71c6_4099_f913_ec93, -387270564),
    ),
    (
        (268435455, 1),
        (0x4d51_5732_7a83_b64c, 0x4d51_5733_1bbc_4515, -387270562),
    ),
    (
        (1000003, 100003),
        (0x5f3c_7bbc_3933_d9c5, 0x5f3c_7bbc_3933_daf7, -77),
    ),
    ((3, 5), (0x463f_75ae_5813_8d86, 0x463f_75ae_5813_8d98, -63)),
    ((3, 20), (0x6e2b_add1_1373_7ff6, 0x6e2b_add1_1373_7ffc, -63)),
    (
        (
            0xfff_ffff_ffff_ffff_ffff_ffff_f000_0000,
            0xffff_ffff_ffff_ffff_ffff_ffff,
        ),
        (0x71c6_4099_0e90_0ad0, 0x71c6_4099_f913_ec93, -387270564),
    ),
    (
        (
            0xfff_ffff_ffff_ffff_ffff_ffff_efff_ffff,
            0xffff_ffff_ffff_ffff_ffff_ffff,
        ),
        (0x71c6_4099_0e90_0ad0, 0x71c6_409a_7fa4_cdcc, -387270564),
    ),
    (
        (
            0x3fff_ffff_ffff_ffff_ffff_ffff,
            0xffff_ffff_ffff_ffff_ffff_ffff,
        ),
        (0x63af_be7a_b208_2ba0, 0x63af_be7a_b208_2ba4, -63),
    ),
    (
        (
            0x4000_0000_0000_0000_0000_0000,
            0xffff_ffff_ffff_ffff_ffff_ffff,
        ),
        (0x63af_be7a_b208_2b9d, 0x63af_be7a_b208_2ba5, -63),
    ),
    (
        (
            0xffff_ffff_ffff_ffff_ffff_fffe,
            0xffff_ffff_ffff_ffff_ffff_ffff,
        ),
        (0x5e2d_58d8_b3bc_df13, 0x5e2d_58d8_b3bc_df25, -64),
    ),
    (
        (
            0x7ff_ffff_ffff_ffff_ffff_ffff_ffff_fffd,
            0xffff_ffff_ffff_ffff_ffff_ffef,
        ),
        (0x5555_02e3_900f_b035, 0x5555_02e4_9499_09ec, -193635313),
    ),
    (
        (
            0x1cd_51ff_ffff_ffff_ffff_ffff_1959,
            0x1ff_ffff_ffff_ffff_ffff_ffff,
        ),
        (0x4ed2_7d42_6627_fdb2, 0x4ed2_7d42_6638_a946, -85252),
    ),
    (
        (
            0x92_4924_9249_2492_4924_9248,
            0x1ff_ffff_ffff_ffff_ffff_ffff,
        ),
        (0x6030_686e_b8f4_7674, 0x6030_686e_b8f4_767c, -63),
    ),
    (
        (
            0x21ff_ffff_ffff_ffff_ffff_fff0,
            0x7ff_ffff_ffff_ffff_ffff_fffc,
        ),
        (0x74da_4444_885d_4723, 0x74da_4444_885d_47ce, -69),
    ),
    (
        (0x4_6419_ced7_f6a4_0000, 0xa_d5f5_a049_c762),
        (0x7068_f089_803f_89da, 0x7068_f089_804b_7f26, -38377),
    ),
];

#[test]
fn bounds_of_the_exponential(rt: HostRuntime) {
    for (argument, want) in &CASES {
        let (p, q) = *argument;
        assert!(rt; 1 <= q && q < 1 << 96 && p <= q << 28);
        assert_eq!(rt; ends(exp_neg(p, q)), *want, "of {p}/{q}");
    }
}
