//! What was read, as texts.
use cg_cql::{curve_line, read_model, read_statement};
use cg_grammar::{CqlCause, CqlFault, CqlLimit};
use cg_model::{Dating, ModelTree, Node};
use std::alloc::{AllocError, Global};
use std::fmt::Write;
use std::test::Fail;

const MAX_BYTES: usize = 10_000;

/// Writes a dating: cal BP years, and ages and errors in thousandths.
fn write_dating(text: &mut String, dating: &Dating) -> Result<(), Fail> {
    match dating {
        Dating::Free => write!(text, "free")?,
        Dating::Exact(year) => write!(text, "{}", year.bp())?,
        Dating::Normal(year, error) => write!(text, "{} by {}", year.bp(), error.thousandths())?,
        Dating::Carbon(age, error) => write!(
            text,
            "aged {} by {}",
            age.thousandths(),
            error.thousandths()
        )?,
    }
    Ok(())
}

/// Writes a node: its kind and name, the dating of a leaf and the number of a group's members.
fn write_node(text: &mut String, node: &Node) -> Result<(), Fail> {
    let name = node.name().text();
    match node {
        Node::Leaf(_, dating) => {
            write!(text, "{name} ")?;
            write_dating(text, dating)?;
        }
        Node::Boundary(_) => write!(text, "Boundary {name}")?,
        Node::Sequence(_, members) => write!(text, "Sequence {name} of {}", members.len())?,
        Node::Phase(_, members) => write!(text, "Phase {name} of {}", members.len())?,
        Node::After(_, members) => write!(text, "After {name} of {}", members.len())?,
        Node::Before(_, members) => write!(text, "Before {name} of {}", members.len())?,
    }
    Ok(())
}

/// Writes the curve of a model and its nodes in their order.
fn write_model(text: &mut String, model: &ModelTree) -> Result<(), Fail> {
    if let Some(curve) = model.curve() {
        write!(text, "curve {}", curve.text())?;
    }
    for place in 0..model.size() {
        if !text.is_empty() {
            text.push_str("; ")?;
        }
        write_node(text, model.node(place))?;
    }
    Ok(())
}

/// The cause of a fault, with the word that it tells.
fn cause_of(alloc: Global, cause: &CqlCause) -> Result<String, Fail> {
    let mut text = String::new(alloc);
    match cause {
        CqlCause::Token => text.push_str("token")?,
        CqlCause::Syntax => text.push_str("syntax")?,
        CqlCause::Command(name) => write!(&mut text, "command {}", name.text())?,
        CqlCause::Option(name) => write!(&mut text, "option {}", name.text())?,
        CqlCause::Place => text.push_str("place")?,
        CqlCause::Argument => text.push_str("argument")?,
        CqlCause::Limit(CqlLimit::Events) => text.push_str("limit events")?,
        CqlCause::Limit(CqlLimit::Groups) => text.push_str("limit groups")?,
        CqlCause::Limit(CqlLimit::Depth) => text.push_str("limit depth")?,
        CqlCause::Limit(CqlLimit::Curves) => text.push_str("limit curves")?,
        CqlCause::NoMemory => return Err(Fail::from("no memory")),
    }
    Ok(text)
}

/// What short bytes are read as.
fn read_short(alloc: Global, bytes: &[u8]) -> Result<ModelTree, Option<CqlFault>> {
    if bytes.len() > MAX_BYTES {
        return Err(None);
    }
    match read_model(alloc, bytes) {
        Ok(model) => Ok(model),
        Err(fault) => Err(Some(fault)),
    }
}

/// What a short text is read as where it stands alone.
fn read_alone(alloc: Global, text: &str) -> Result<Node, Option<CqlFault>> {
    if text.len() > MAX_BYTES {
        return Err(None);
    }
    match read_statement(alloc, text.as_bytes()) {
        Ok(node) => Ok(node),
        Err(fault) => Err(Some(fault)),
    }
}

/// The line and the cause of a file's fault.
pub fn fault_of(alloc: Global, text: &str) -> Result<(u32, String), Fail> {
    match read_short(alloc, text.as_bytes()) {
        Err(Some(fault)) => Ok((fault.line, cause_of(alloc, &fault.cause)?)),
        _ => Err(Fail::from("no fault")),
    }
}

/// The line on which a short text names its curve.
pub fn line_of(text: &str) -> Result<Option<u32>, Fail> {
    if text.len() > MAX_BYTES {
        return Err(Fail::from("a long text"));
    }
    Ok(curve_line(text.as_bytes()))
}

/// The line and the cause of the fault of a statement that stands alone.
pub fn fault_alone(alloc: Global, text: &str) -> Result<(u32, String), Fail> {
    match read_alone(alloc, text) {
        Err(Some(fault)) => Ok((fault.line, cause_of(alloc, &fault.cause)?)),
        _ => Err(Fail::from("no fault")),
    }
}

/// The curve of a file, and its nodes in their order.
pub fn said_of(alloc: Global, text: &str) -> Result<String, Fail> {
    let mut said = String::new(alloc);
    match read_short(alloc, text.as_bytes()) {
        Ok(model) => write_model(&mut said, &model)?,
        Err(_) => return Err(Fail::from("a fault")),
    }
    Ok(said)
}

/// How many events and nodes a file has, or the line and the cause of its fault.
pub fn counted(alloc: Global, bytes: &[u8]) -> Result<String, Fail> {
    let mut said = String::new(alloc);
    match read_short(alloc, bytes) {
        Ok(model) => write!(&mut said, "{} of {}", model.events(), model.size())?,
        Err(Some(fault)) => {
            let cause = cause_of(alloc, &fault.cause)?;
            write!(&mut said, "{} {}", fault.line, cause.as_str())?;
        }
        Err(None) => return Err(Fail::from("a long text")),
    }
    Ok(said)
}

/// The node of a statement that stands alone.
pub fn alone_of(alloc: Global, text: &str) -> Result<String, Fail> {
    let mut said = String::new(alloc);
    match read_alone(alloc, text) {
        Ok(node) => write_node(&mut said, &node)?,
        Err(_) => return Err(Fail::from("a fault")),
    }
    Ok(said)
}

/// So many times this text.
pub fn repeated(alloc: Global, text: &str, count: u32) -> Result<String, AllocError> {
    let mut all = String::new(alloc);
    for _ in 0..count {
        all.push_str(text)?;
    }
    Ok(all)
}
