//! Cases worked out by listing every dating, by `cases/listing_cases.py`.

/// A name, the text of a model, and the older and the younger year of the grid. For some events what part of the
/// datings has it at each cell: a number, and so many of it for each. It is 0 where no dating is allowed.
pub(super) type Case = (
    &'static str,
    &'static str,
    (i64, i64),
    &'static [(u32, u32, &'static [u32])],
);

pub(super) static ORDER: [Case; 7] = [
    (
        "one alone",
        r#"Date("a");"#,
        (2_001, 2_000),
        &[(0, 2, &[1, 1])],
    ),
    (
        "one alone",
        r#"Date("a");"#,
        (2_002, 2_000),
        &[(0, 3, &[1, 1, 1])],
    ),
    (
        "two side by side",
        r#"Date("a");Date("b");"#,
        (2_002, 2_000),
        &[(1, 3, &[1, 1, 1])],
    ),
    (
        "a Phase of two in a Sequence",
        r#"Sequence(){Date("a");Phase(){Date("b");Date("c");};Date("d");};"#,
        (2_002, 2_000),
        &[
            (0, 20, &[14, 5, 1]),
            (1, 10, &[3, 4, 3]),
            (2, 10, &[3, 4, 3]),
            (3, 20, &[1, 5, 14]),
        ],
    ),
    (
        "a Sequence in a Phase in a Sequence",
        r#"Sequence(){Date("a");Phase(){Sequence(){Date("b");Date("c");};Date("d");};Date("e");};"#,
        (2_002, 2_000),
        &[
            (1, 33, &[14, 13, 6]),
            (2, 33, &[6, 13, 14]),
            (3, 33, &[10, 13, 10]),
        ],
    ),
    (
        "groups without members",
        r#"Sequence(){Date("a");Phase(){};After(){};Before(){};Sequence(){};Date("b");};Phase(){};"#,
        (2_002, 2_000),
        &[(0, 6, &[3, 2, 1]), (1, 6, &[1, 2, 3])],
    ),
    (
        "exact years in the wrong order",
        r#"Sequence(){C_Date("a",-51);C_Date("b",-52);};Date("c");"#,
        (2_001, 2_000),
        &[(2, 0, &[])],
    ),
];

pub(super) static ONE_SIDED_GROUPS: [Case; 4] = [
    (
        "an After group",
        r#"Sequence(){Date("a");After(){Date("b");};Date("c");};"#,
        (2_001, 2_000),
        &[(0, 5, &[3, 2]), (1, 5, &[3, 2]), (2, 5, &[1, 4])],
    ),
    (
        "a Before group",
        r#"Sequence(){Date("a");Before(){Date("b");};Date("c");};"#,
        (2_001, 2_000),
        &[(0, 5, &[4, 1]), (1, 5, &[2, 3]), (2, 5, &[2, 3])],
    ),
    (
        "an After and a Before group of two",
        r#"Sequence(){Date("a");After(){Date("b");Date("c");};Before(){Date("d");Date("e");};Date("f");};"#,
        (2_002, 2_000),
        &[
            (0, 102, &[56, 37, 9]),
            (1, 102, &[56, 37, 9]),
            (3, 102, &[9, 37, 56]),
            (5, 102, &[9, 37, 56]),
        ],
    ),
    (
        "an After group first and a Before group last",
        r#"Sequence(){After(){Date("a");};Date("b");Before(){Date("c");};};"#,
        (2_002, 2_000),
        &[
            (0, 10, &[6, 3, 1]),
            (1, 10, &[3, 4, 3]),
            (2, 10, &[1, 3, 6]),
        ],
    ),
];

pub(super) static SPANS: [Case; 6] = [
    (
        "two Boundaries",
        r#"Sequence(){Boundary("a");Date("b");Boundary("c");};"#,
        (2_001, 2_000),
        &[(0, 3, &[2, 1]), (1, 2, &[1, 1]), (2, 3, &[1, 2])],
    ),
    (
        "two Boundaries alone",
        r#"Sequence(){Boundary("a");Boundary("b");};"#,
        (2_002, 2_000),
        &[(0, 6, &[3, 2, 1]), (1, 6, &[1, 2, 3])],
    ),
    (
        "one Boundary alone",
        r#"Sequence(){Date("a");Boundary("b");Date("c");};"#,
        (2_002, 2_000),
        &[
            (0, 10, &[6, 3, 1]),
            (1, 10, &[3, 4, 3]),
            (2, 10, &[1, 3, 6]),
        ],
    ),
    (
        "dates around two Boundaries",
        r#"Sequence(){Date("a");Boundary("b");Date("c");Date("d");Boundary("e");Date("f");};"#,
        (2_002, 2_000),
        &[
            (0, 164, &[107, 45, 12]),
            (1, 82, &[31, 33, 18]),
            (2, 246, &[78, 103, 65]),
            (4, 82, &[18, 33, 31]),
            (5, 164, &[12, 45, 107]),
        ],
    ),
    (
        "nothing in a span",
        r#"Sequence(){Boundary("a");Phase(){};Boundary("b");Date("c");};"#,
        (2_002, 2_000),
        &[
            (0, 10, &[6, 3, 1]),
            (1, 10, &[3, 4, 3]),
            (2, 10, &[1, 3, 6]),
        ],
    ),
    (
        "an exact year in a span",
        r#"Sequence(){Boundary("a");C_Date("b",-52);Date("c");Boundary("d");};"#,
        (2_002, 2_000),
        &[
            (0, 71, &[17, 54, 0]),
            (2, 71, &[0, 58, 13]),
            (3, 71, &[0, 45, 26]),
        ],
    ),
];

pub(super) static SEVERAL_SPANS: [Case; 4] = [
    (
        "three Boundaries",
        r#"Sequence(){Boundary("a");Date("b");Boundary("c");Date("d");Date("e");Boundary("f");};"#,
        (2_002, 2_000),
        &[
            (0, 107, &[62, 33, 12]),
            (1, 214, &[87, 83, 44]),
            (2, 107, &[29, 42, 36]),
            (3, 321, &[66, 125, 130]),
            (5, 107, &[12, 33, 62]),
        ],
    ),
    (
        "a date before a span and nothing in the next",
        r#"Sequence(){Date("a");Boundary("b");Date("c");Boundary("d");Boundary("e");};"#,
        (2_003, 2_000),
        &[
            (0, 35, &[20, 10, 4, 1]),
            (1, 35, &[10, 12, 9, 4]),
            (2, 60, &[11, 19, 19, 11]),
            (4, 35, &[1, 4, 10, 20]),
        ],
    ),
    (
        "spans side by side",
        concat!(
            r#"Phase(){Sequence(){Boundary("a");Date("b");Boundary("c");};"#,
            r#"Sequence(){Boundary("d");Date("e");Date("f");Boundary("g");};};"#,
        ),
        (2_001, 2_000),
        &[(0, 3, &[2, 1]), (4, 11, &[6, 5]), (6, 11, &[4, 7])],
    ),
    (
        "nested spans",
        r#"Sequence(){Boundary("a");Sequence(){Boundary("b");Date("c");Boundary("d");};Boundary("e");};"#,
        (2_001, 2_000),
        &[(0, 11, &[7, 4]), (1, 11, &[6, 5]), (2, 2, &[1, 1])],
    ),
];

pub(super) static GROUPS_IN_SPANS: [Case; 4] = [
    (
        "a span in a Phase in a span",
        concat!(
            r#"Sequence(){Boundary("a");Phase(){Sequence(){Boundary("b");"#,
            r#"Date("c");Boundary("d");};Date("e");};Boundary("f");};"#,
        ),
        (2_002, 2_000),
        &[
            (0, 62, &[29, 21, 12]),
            (1, 186, &[66, 71, 49]),
            (2, 36, &[11, 14, 11]),
            (4, 372, &[115, 142, 115]),
            (5, 62, &[12, 21, 29]),
        ],
    ),
    (
        "a Boundary of a nested Sequence",
        r#"Sequence(){Boundary("a");Sequence(){Date("b");Boundary("c");Date("d");};Boundary("e");};"#,
        (2_002, 2_000),
        &[
            (0, 236, &[101, 81, 54]),
            (1, 944, &[345, 348, 251]),
            (2, 472, &[147, 178, 147]),
            (3, 944, &[251, 348, 345]),
            (4, 236, &[54, 81, 101]),
        ],
    ),
    (
        "an After and a Before group in a span",
        r#"Sequence(){Boundary("a");After(){Date("b");};Date("c");Before(){Date("d");};Boundary("e");};"#,
        (2_002, 2_000),
        &[
            (0, 122, &[59, 45, 18]),
            (1, 122, &[72, 39, 11]),
            (2, 122, &[33, 56, 33]),
            (3, 122, &[11, 39, 72]),
            (4, 122, &[18, 45, 59]),
        ],
    ),
    (
        "a span in an After group in a span",
        concat!(
            r#"Sequence(){Boundary("a");After(){Sequence(){Boundary("b");"#,
            r#"Date("c");Boundary("d");};Date("e");};Boundary("f");};"#,
        ),
        (2_001, 2_000),
        &[
            (0, 13, &[7, 6]),
            (1, 13, &[9, 4]),
            (4, 13, &[7, 6]),
            (5, 13, &[1, 12]),
        ],
    ),
];
