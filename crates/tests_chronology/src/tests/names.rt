//! Names at their limit.
use cg_model::{Name, NameFault};
use std::alloc::Global;
use std::test::Fail;

// 60 letters of two bytes
const LONGEST: &str = "éééééééééééééééééééééééééééééééééééééééééééééééééééééééééééé";

const TOO_LONG: &str = "ééééééééééééééééééééééééééééééééééééééééééééééééééééééééééééx";

// whether the name of a text, and its copy, keep it
fn is_kept(alloc: Global, text: &str) -> Result<bool, Fail> {
    let name = Name::new(alloc, text)?;
    let copy = name.copy(alloc)?;
    Ok(name.text() == text && copy.text() == text)
}

#[test]
fn names(rt: HostRuntime) -> Result<(), Fail> {
    for text in ["", "OxA-1", LONGEST] {
        assert!(rt; is_kept(rt.alloc(), text)?, "{text}");
    }
    Ok(())
}

fn fault_of(alloc: Global, text: &str) -> Option<NameFault> {
    Name::new(alloc, text).err()
}

#[test]
fn long_names(rt: HostRuntime) {
    assert!(rt; LONGEST.len() == 120 && TOO_LONG.len() == 121);
    assert!(rt; fault_of(rt.alloc(), TOO_LONG) == Some(NameFault::TooLong));
}
