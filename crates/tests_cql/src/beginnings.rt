//! Each beginning of a model of twenty lines: how many events and nodes it has, or the line and the cause of its fault.
use crate::shown::counted;
use std::test::Fail;

/// The model, with its line ends.
static MODEL: &str = "// two phases of one site\n\
Options(){Resolution=1;BCAD=TRUE;\n\
\x20SD2=FALSE; kIterations=-1.50;};\n\
Plot(\"plot\"){\n\
\x20Curve(\"IntCal20\",\n\
\x20 \"IntCal20.14c\");\n\
\x20Sequence(\"Site\"){\n\
\x20 Boundary(\"Start 1\");\n\
\x20 Phase(\"1\"){\n\
\x20  R_Date(\"OxA-1\",2340,30);\n\
\x20  R_Date(\"Öx/2\", 2325.5, 28);\n\
\x20 }\n\
\x20 Boundary(); /* an end\n\
\x20 and a start */ Boundary(\"Start 2\");\n\
\x20 After(\"coin\"){C_Date(\"Coin\",-230);};\n\
\x20 Phase(\"2\"){C_Date(-150,+5.0);Date(\"x\");\n\
\x20  Before(){Date();};};\n\
\x20 Boundary(\"End 2\");\n\
\x20};\n\
};\n\
";

/// The number of bytes from which on a beginning comes to this, up to that of the next row.
static BEGINNINGS: [(usize, &str); 202] = [
    (0, "0 of 0"),
    (1, "1 token"),
    (2, "0 of 0"),
    (27, "2 command O"),
    (28, "2 command Op"),
    (29, "2 command Opt"),
    (30, "2 command Opti"),
    (31, "2 command Optio"),
    (32, "2 command Option"),
    (33, "2 syntax"),
    (37, "2 option R"),
    (38, "2 option Re"),
    (39, "2 option Res"),
    (40, "2 option Reso"),
    (41, "2 option Resol"),
    (42, "2 option Resolu"),
    (43, "2 option Resolut"),
    (44, "2 option Resoluti"),
    (45, "2 option Resolutio"),
    (46, "2 syntax"),
    (50, "2 option B"),
    (51, "2 option BC"),
    (52, "2 option BCA"),
    (53, "2 syntax"),
    (60, "3 syntax"),
    (62, "3 option S"),
    (63, "3 option SD"),
    (64, "3 syntax"),
    (73, "3 option k"),
    (74, "3 option kI"),
    (75, "3 option kIt"),
    (76, "3 option kIte"),
    (77, "3 option kIter"),
    (78, "3 option kItera"),
    (79, "3 option kIterat"),
    (80, "3 option kIterati"),
    (81, "3 option kIteratio"),
    (82, "3 option kIteration"),
    (83, "3 syntax"),
    (85, "3 token"),
    (86, "3 syntax"),
    (87, "3 token"),
    (88, "3 syntax"),
    (91, "0 of 0"),
    (94, "4 command P"),
    (95, "4 command Pl"),
    (96, "4 command Plo"),
    (97, "4 syntax"),
    (99, "4 token"),
    (104, "4 syntax"),
    (107, "5 syntax"),
    (109, "5 command C"),
    (110, "5 command Cu"),
    (111, "5 command Cur"),
    (112, "5 command Curv"),
    (113, "5 syntax"),
    (115, "5 token"),
    (124, "5 syntax"),
    (126, "6 syntax"),
    (129, "6 token"),
    (142, "6 syntax"),
    (145, "7 syntax"),
    (147, "7 command S"),
    (148, "7 command Se"),
    (149, "7 command Seq"),
    (150, "7 command Sequ"),
    (151, "7 command Seque"),
    (152, "7 command Sequen"),
    (153, "7 command Sequenc"),
    (154, "7 syntax"),
    (156, "7 token"),
    (161, "7 syntax"),
    (164, "8 syntax"),
    (167, "8 command B"),
    (168, "8 command Bo"),
    (169, "8 command Bou"),
    (170, "8 command Boun"),
    (171, "8 command Bound"),
    (172, "8 command Bounda"),
    (173, "8 command Boundar"),
    (174, "8 syntax"),
    (176, "8 token"),
    (184, "8 syntax"),
    (187, "9 syntax"),
    (190, "9 command P"),
    (191, "9 command Ph"),
    (192, "9 command Pha"),
    (193, "9 command Phas"),
    (194, "9 syntax"),
    (196, "9 token"),
    (198, "9 syntax"),
    (201, "10 syntax"),
    (205, "10 command R"),
    (206, "10 command R_"),
    (207, "10 command R_D"),
    (208, "10 command R_Da"),
    (209, "10 command R_Dat"),
    (210, "10 syntax"),
    (212, "10 token"),
    (218, "10 syntax"),
    (229, "11 syntax"),
    (233, "11 command R"),
    (234, "11 command R_"),
    (235, "11 command R_D"),
    (236, "11 command R_Da"),
    (237, "11 command R_Dat"),
    (238, "11 syntax"),
    (240, "11 token"),
    (246, "11 syntax"),
    (253, "11 token"),
    (254, "11 syntax"),
    (261, "12 syntax"),
    (265, "13 syntax"),
    (268, "13 command B"),
    (269, "13 command Bo"),
    (270, "13 command Bou"),
    (271, "13 command Boun"),
    (272, "13 command Bound"),
    (273, "13 command Bounda"),
    (274, "13 command Boundar"),
    (275, "13 syntax"),
    (280, "13 token"),
    (305, "14 syntax"),
    (307, "14 command B"),
    (308, "14 command Bo"),
    (309, "14 command Bou"),
    (310, "14 command Boun"),
    (311, "14 command Bound"),
    (312, "14 command Bounda"),
    (313, "14 command Boundar"),
    (314, "14 syntax"),
    (316, "14 token"),
    (324, "14 syntax"),
    (327, "15 syntax"),
    (330, "15 command A"),
    (331, "15 command Af"),
    (332, "15 command Aft"),
    (333, "15 command Afte"),
    (334, "15 syntax"),
    (336, "15 token"),
    (341, "15 syntax"),
    (344, "15 command C"),
    (345, "15 command C_"),
    (346, "15 command C_D"),
    (347, "15 command C_Da"),
    (348, "15 command C_Dat"),
    (349, "15 syntax"),
    (351, "15 token"),
    (356, "15 syntax"),
    (358, "15 token"),
    (359, "15 syntax"),
    (366, "16 syntax"),
    (369, "16 command P"),
    (370, "16 command Ph"),
    (371, "16 command Pha"),
    (372, "16 command Phas"),
    (373, "16 syntax"),
    (375, "16 token"),
    (377, "16 syntax"),
    (380, "16 command C"),
    (381, "16 command C_"),
    (382, "16 command C_D"),
    (383, "16 command C_Da"),
    (384, "16 command C_Dat"),
    (385, "16 syntax"),
    (387, "16 token"),
    (388, "16 syntax"),
    (392, "16 token"),
    (393, "16 syntax"),
    (394, "16 token"),
    (395, "16 syntax"),
    (398, "16 command D"),
    (399, "16 command Da"),
    (400, "16 command Dat"),
    (401, "16 syntax"),
    (403, "16 token"),
    (405, "16 syntax"),
    (408, "17 syntax"),
    (412, "17 command B"),
    (413, "17 command Be"),
    (414, "17 command Bef"),
    (415, "17 command Befo"),
    (416, "17 command Befor"),
    (417, "17 syntax"),
    (421, "17 command D"),
    (422, "17 command Da"),
    (423, "17 command Dat"),
    (424, "17 syntax"),
    (432, "18 syntax"),
    (435, "18 command B"),
    (436, "18 command Bo"),
    (437, "18 command Bou"),
    (438, "18 command Boun"),
    (439, "18 command Bound"),
    (440, "18 command Bounda"),
    (441, "18 command Boundar"),
    (442, "18 syntax"),
    (444, "18 token"),
    (450, "18 syntax"),
    (453, "19 syntax"),
    (457, "20 syntax"),
    (458, "10 of 15"),
];

// what a beginning of so many bytes comes to
fn want(bytes: usize) -> &'static str {
    let mut want = "";
    for (from, told) in &BEGINNINGS {
        if *from <= bytes {
            want = told;
        }
    }
    want
}

#[test]
fn beginnings(rt: HostRuntime) -> Result<(), Fail> {
    let model = MODEL.as_bytes();
    for bytes in 0..model.len() + 1 {
        let (front, _) = model.split_at(bytes);
        let told = counted(rt.alloc(), front)?;
        assert_eq!(rt; told.as_str(), want(bytes), "{bytes}");
    }
    Ok(())
}
