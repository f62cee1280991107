//! Scripts that are read.
use crate::told::{read, told};
use cg_edit::Edit;
use cg_model::{Dating, Node};
use cg_script::{Command, Script};
use std::alloc::Global;
use std::test::Fail;

/// Scripts, and how many commands they have.
static SCRIPTS: [(&str, &str); 17] = [
    ("", "0 commands\n"),
    ("\n", "0 commands\n"),
    ("\n\n# remark\n \t \n", "0 commands\n"),
    ("undo", "1 commands\n"),
    ("undo\r\nundo\n", "2 commands\n"),
    (" undo \n\tundo\t", "2 commands\n"),
    ("grid 5 3\ngrid +0005 -3\ngrid 60000 -1000", "3 commands\n"),
    (
        "open a\nopen aaaaaaaaaaaaaaaaaaaaaaaaaaaaaaaaaaaaaaaaaaaaaaaaaaaaaaaaaaaaaaaa\nopen 1.a_-",
        "3 commands\n",
    ),
    ("take v0\ntake v0000007\ntake v9999999", "3 commands\n"),
    (
        "print \"A B  C\"\nprint \"é,;(){}=#\"\nprint \"aaaaaaaaaaaaaaaaaaaaaaaaaaaaaaaaaaaaaaaaaaaaaaaaaaaaaaaaaaaaaaaaaaaaaaaaaaaaaaaaaaaaaaaaaaaaaaaaaaaaaaaaaaaaaaaaaaaaaaaa\" ",
        "3 commands\n",
    ),
    ("ranges \"=A\"", "1 commands\n"),
    ("drop \"A\"", "1 commands\n"),
    ("rename \"A\" \"\"\nrename \"A\" \"B\"", "2 commands\n"),
    ("commit main\nmodel\nwork", "3 commands\n"),
    (
        "set \"A\" Date();\nset \"A\" Date(\"\");\nset \"A\" C_Date(-50);\nset \"A\" C_Date(-50,5) ; // note\nset \"A\"  R_Date( 2000 , 30.5 );",
        "5 commands\n",
    ),
    (
        "add \"s\" Boundary(\"E\");\nadd \"s\" Phase(\"p\"){Date(\"B\");}\ninsert \"s\" Sequence(){};",
        "3 commands\n",
    ),
    ("add \"s\" /* note */ Date(\"C\");", "1 commands\n"),
];

#[test]
fn scripts(rt: HostRuntime) -> Result<(), Fail> {
    for (text, want) in &SCRIPTS {
        assert_eq!(rt;
            told(rt.alloc(), text.as_bytes())?.as_str(),
            *want,
            "{text:?}"
        );
    }
    Ok(())
}

/// A script with each command, remarks between them.
static EACH: &str =
    "# a day\ngrid +2511 -0007\n\nopen main\ntake v007\nundo\nset \"A\" R_Date(2000,30.5);\nadd \"s\" Boundary(\"E\");\ninsert \"A\" Date(\"M\");\ndrop \"M\"\nrename \"A\" \"\"\ncommit main\nprint \"B\"\nranges \"B\"\nmodel\nwork";

/// The lines of these commands.
static LINES: [u32; 14] = [2, 4, 5, 6, 7, 8, 9, 10, 11, 12, 13, 14, 15, 16];

fn each(alloc: Global) -> Result<Script, Fail> {
    match read(alloc, EACH.as_bytes())? {
        Ok(script) => Ok(script),
        Err(_) => Err("no script".into()),
    }
}

#[test]
fn lines(rt: HostRuntime) -> Result<(), Fail> {
    let script = each(rt.alloc())?;
    assert_eq!(rt; script.len(), LINES.len());
    for (place, line) in LINES.iter().enumerate() {
        if place < script.len() {
            assert_eq!(rt; script.get(place).0, *line);
        }
    }
    Ok(())
}

// what stands between the names of a command, and the numbers that it brings
fn is_plain(command: &Command, place: usize) -> bool {
    match command {
        Command::Grid(older, younger) => { place == 0 && older.bp() == 2_511 && younger.bp() == -7 }
        Command::Open(name) => place == 1 && name.text() == "main",
        Command::Take(version) => place == 2 && *version == 7,
        Command::Undo => place == 3,
        Command::Change(edit) => is_change(edit, place),
        Command::Commit(name) => place == 9 && name.text() == "main",
        Command::Print(name) => place == 10 && name.text() == "B",
        Command::Ranges(name) => place == 11 && name.text() == "B",
        Command::Model => place == 12,
        Command::Work => place == 13,
    }
}

fn is_change(edit: &Edit, place: usize) -> bool {
    match edit {
        Edit::Set(name, dating) => place == 4 && name.text() == "A" && is_age(dating),
        Edit::Add(name, node) => place == 5 && name.text() == "s" && is_boundary(node),
        Edit::InsertBefore(name, node) => {
            place == 6 && name.text() == "A" && node.name().text() == "M"
        }
        Edit::Drop(name) => place == 7 && name.text() == "M",
        Edit::Rename(name, new) => place == 8 && name.text() == "A" && new.text().is_empty(),
    }
}

fn is_age(dating: &Dating) -> bool {
    match dating {
        Dating::Carbon(age, error) => {
            age.thousandths() == 2_000_000 && error.thousandths() == 30_500
        }
        _ => false,
    }
}

fn is_boundary(node: &Node) -> bool {
    match node {
        Node::Boundary(name) => name.text() == "E",
        _ => false,
    }
}

#[test]
fn commands(rt: HostRuntime) -> Result<(), Fail> {
    let script = each(rt.alloc())?;
    assert_eq!(rt; script.len(), LINES.len());
    for place in 0..script.len() {
        assert!(rt; is_plain(script.get(place).1, place), "{place}");
    }
    Ok(())
}
