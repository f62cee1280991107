//! Pieces that stand in front of bytes.
use cg_text::{after, digits_len, is_name, name_at, name_of, number_at, number_of, text_at};
use std::test::Fail;

/// Digits, how many at most, and the number in front.
static NUMBERS: [(&str, usize, Option<u32>); 6] = [
    ("1234567;", 7, Some(1_234_567)),
    ("12345678;", 7, None),
    ("100000;", 5, None),
    ("0;", 1, Some(0)),
    ("00;", 5, None),
    (";", 5, None),
];

#[test]
fn numbers(rt: HostRuntime) {
    for (text, most, want) in &NUMBERS {
        if 1 <= *most && *most <= 7 {
            let read = number_at(text.as_bytes(), *most).map(|number| number.0);
            assert_eq!(rt; read, *want, "{text}");
        }
    }
    assert_eq!(rt; digits_len(b"007x1"), 3);
    assert_eq!(rt; number_of(b"0071"), 71);
}

#[test]
fn words_in_front(rt: HostRuntime) {
    assert_eq!(rt; after(b"undo\n", b"undo"), Some(b"\n".as_slice()));
    assert_eq!(rt; after(b"und", b"undo"), None);
}

/// Bytes, and the text in front of them, or an empty one where none is.
static TEXTS: [(&str, &str, &str); 3] = [
    ("\"A1\" x", "A1", " x"),
    ("A1", "", ""),
    ("\"A 1\"", "", ""),
];

#[test]
fn texts_in_front(rt: HostRuntime) {
    for (bytes, want, behind) in &TEXTS {
        let (text, rest) = text_at(bytes.as_bytes()).unwrap_or(("", b"".as_slice()));
        assert_eq!(rt; text, *want, "{bytes}");
        assert_eq!(rt; rest, behind.as_bytes(), "{bytes}");
    }
}

/// Bytes, the name in front of them, and whether they are a name.
static NAMES: [(&str, &str, bool); 5] = [
    ("a-b_c.14 x", "a-b_c.14", false),
    ("a-b_c.14", "a-b_c.14", true),
    ("a/b", "a", false),
    (" a", "", false),
    ("", "", false),
];

#[test]
fn names_in_front(rt: HostRuntime) {
    for (bytes, want, whole) in &NAMES {
        let (name, _) = name_at(bytes.as_bytes()).unwrap_or(("", b"".as_slice()));
        assert_eq!(rt; name, *want, "{bytes}");
        assert_eq!(rt; is_name(bytes), *whole, "{bytes}");
    }
}

#[test]
fn names_of_nodes(rt: HostRuntime) -> Result<(), Fail> {
    let name = name_of(rt.alloc(), "A")?;
    assert_eq!(rt; name.text(), "A");
    Ok(())
}
