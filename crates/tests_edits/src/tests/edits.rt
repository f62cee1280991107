//! Changes of a site.
ghost use Rattle.std.specs.Prelude.{◌≡◌, IfOk};
ghost use Rattle.cg_sharing.specs.Journal.{IsInOrder};
ghost use Rattle.cg_edit.specs.Plain.{edit_in};

use crate::tests::texts::{change, model, name, repeated};
use cg_edit::{Edit, EditFault, Kind, apply};
use cg_model::{Dating, GroupKind, Limit, Members, ModelTree, Name, Node, View};
use std::alloc::{AllocError, Global};
use std::test::Fail;

const SITE: &str =
    "Sequence(\"s\"){Date(\"A\");Phase(\"p\"){Date(\"B\");Date(\"T\");};Boundary(\"E\");After(\"a\"){Date(\"T\");};Before(\"b\"){};};";

const SEEN: &str = "s[A p(B T ) |E a>(T ) b<() ) ";

fn site(alloc: Global) -> Result<ModelTree, Fail> {
    let read = model(alloc, SITE)?;
    let curve = name(alloc, "IntCal20.14c")?;
    Ok(ModelTree::new(Some(curve), read.top().copy(alloc)?)?)
}

fn opening(kind: GroupKind) -> &'static str {
    match kind {
        GroupKind::Sequence => "[",
        GroupKind::Phase => "(",
        GroupKind::After => ">(",
        GroupKind::Before => "<(",
    }
}

fn write_leaf(text: &mut String, name: &Name, dating: &Dating) -> Result<(), AllocError> {
    match dating {
        Dating::Exact(year) => write!(text, "{}={} ", name.text(), year.bp()),
        Dating::Normal(year, error) => {
            write!(
                text,
                "{}={}~{} ",
                name.text(),
                year.bp(),
                error.thousandths()
            )
        }
        Dating::Carbon(age, error) => {
            write!(
                text,
                "{}@{}~{} ",
                name.text(),
                age.thousandths(),
                error.thousandths()
            )
        }
        Dating::Free => write!(text, "{} ", name.text()),
    }
}

// a node as its name: with its year or age and its error, behind a bar for a Boundary, or before its members
#[cycle(seen)]
fn write_node(text: &mut String, node: &Node) -> Result<(), AllocError> {
    match node.view() {
        View::Leaf(name, dating) => write_leaf(text, name, dating),
        View::Boundary(name) => write!(text, "|{} ", name.text()),
        View::Group(kind, name, members) => {
            write!(text, "{}{}", name.text(), opening(kind))?;
            write_nodes(text, members)?;
            text.push_str(") ")
        }
    }
}

#[cycle(seen)]
fn write_nodes(text: &mut String, members: &Members) -> Result<(), AllocError> {
    for node in members.nodes() {
        write_node(text, node)?;
    }
    Ok(())
}

// all nodes of a model in order
fn seen(alloc: Global, model: &ModelTree) -> Result<String, AllocError> {
    let mut text = String::new(alloc);
    write_nodes(&mut text, model.top())?;
    Ok(text)
}

fn applied(alloc: Global, model: &ModelTree, edit: &Edit) -> Result<ModelTree, EditFault>
    requires { IsInOrder (edit_in edit.now) }
{
    apply(alloc, model, edit)
}

fn changed(alloc: Global, model: &ModelTree, edit: &Edit) -> Result<String, EditFault>
    requires { IsInOrder (edit_in edit.now) }
{
    let after = applied(alloc, model, edit)?;
    seen(alloc, &after).map_err(|_| EditFault::NoMemory)
}

// the site after a change, or why it is refused; the site itself stays
fn outcome_of(alloc: Global, edit: &Edit) -> Result<Result<String, EditFault>, Fail>
    requires { IsInOrder (edit_in edit.now) }
{
    let model = site(alloc)?;
    let outcome = changed(alloc, &model, edit);
    if seen(alloc, &model)?.as_str() != SEEN {
        return Err("the site changed".into());
    }
    Ok(outcome)
}

fn outcome(alloc: Global, line: &str) -> Result<Result<String, EditFault>, Fail> {
    let edit = change(alloc, line)?;
    outcome_of(alloc, &edit)
}

static CHANGES: [(&str, &str); 6] = [
    (
        "set \"A\" C_Date(-51);",
        "s[A=2000 p(B T ) |E a>(T ) b<() ) ",
    ),
    (
        "set \"B\" C_Date(-61,5);",
        "s[A p(B=2010~5000 T ) |E a>(T ) b<() ) ",
    ),
    (
        "set \"B\" R_Date(2340,30);",
        "s[A p(B@2340000~30000 T ) |E a>(T ) b<() ) ",
    ),
    ("add \"p\" Date(\"N\");", "s[A p(B T N ) |E a>(T ) b<() ) "),
    ("add \"b\" Date(\"N\");", "s[A p(B T ) |E a>(T ) b<(N ) ) "),
    (
        "add \"s\" Boundary(\"N\");",
        "s[A p(B T ) |E a>(T ) b<() |N ) ",
    ),
];

#[test]
fn changes(rt: HostRuntime) -> Result<(), Fail> {
    for (line, want) in &CHANGES {
        let text = outcome(rt.alloc(), line)??;
        assert_eq!(rt; text.as_str(), *want);
    }
    Ok(())
}

static REFUSED_SETS: [(&str, EditFault); 7] = [
    ("set \"X\" R_Date(2340,30);", EditFault::NoName),
    ("set \"T\" R_Date(2340,30);", EditFault::Ambiguous(2)),
    (
        "set \"E\" R_Date(2340,30);",
        EditFault::WrongKind(Kind::Boundary),
    ),
    (
        "set \"s\" R_Date(2340,30);",
        EditFault::WrongKind(Kind::Sequence),
    ),
    (
        "set \"p\" R_Date(2340,30);",
        EditFault::WrongKind(Kind::Phase),
    ),
    (
        "set \"a\" R_Date(2340,30);",
        EditFault::WrongKind(Kind::After),
    ),
    (
        "set \"b\" R_Date(2340,30);",
        EditFault::WrongKind(Kind::Before),
    ),
];

#[test]
fn refused_sets(rt: HostRuntime) -> Result<(), Fail> {
    for (line, want) in &REFUSED_SETS {
        let fault = outcome(rt.alloc(), line)?.err();
        assert_eq!(rt; fault, Some(*want), "{line}");
    }
    Ok(())
}

static REFUSED_ADDS: [(&str, EditFault); 7] = [
    ("add \"X\" Boundary(\"N\");", EditFault::NoName),
    ("add \"T\" Boundary(\"N\");", EditFault::Ambiguous(2)),
    ("add \"A\" Date(\"N\");", EditFault::WrongKind(Kind::Leaf)),
    (
        "add \"E\" Date(\"N\");",
        EditFault::WrongKind(Kind::Boundary),
    ),
    (
        "add \"p\" Boundary(\"N\");",
        EditFault::WrongKind(Kind::Phase),
    ),
    (
        "add \"a\" Boundary(\"N\");",
        EditFault::WrongKind(Kind::After),
    ),
    (
        "add \"b\" Boundary(\"N\");",
        EditFault::WrongKind(Kind::Before),
    ),
];

#[test]
fn refused_adds(rt: HostRuntime) -> Result<(), Fail> {
    for (line, want) in &REFUSED_ADDS {
        let fault = outcome(rt.alloc(), line)?.err();
        assert_eq!(rt; fault, Some(*want), "{line}");
    }
    Ok(())
}

// a Phase of a Boundary, which no text says, behind the members of a Sequence
fn span(alloc: Global) -> Result<Edit, Fail>
    ensures { IfOk result (λ edit. IsInOrder (edit_in edit)) }
{
    let mut members = Members::new(alloc);
    members.push(Node::Boundary(name(alloc, "N")?))?;
    let phase = Node::Phase(name(alloc, "")?, members);
    Ok(Edit::Add(name(alloc, "s")?, phase))
}

fn span_outcome(alloc: Global) -> Result<Result<String, EditFault>, Fail> {
    let edit = span(alloc)?;
    outcome_of(alloc, &edit)
}

#[test]
fn refused_spans(rt: HostRuntime) -> Result<(), Fail> {
    let fault = span_outcome(rt.alloc())?.err();
    assert_eq!(rt; fault, Some(EditFault::WrongKind(Kind::Phase)));
    Ok(())
}

// nodes: what stands first, what is opened and closed so many times behind it, and what stands last
const DATE: [&str; 4] = ["Date(\"N\");", "", "", ""];

const BOUNDARY: [&str; 4] = ["Boundary(\"N\");", "", "", ""];

const DATES: [&str; 4] = ["Phase(){", "Date(\"x\");", "", "};"];

const GROUPS: [&str; 4] = ["Phase(){", "Phase(){};", "", "};"];

const TOWER: [&str; 4] = ["", "Phase(){", "};", ""];

// the addition of such a node
fn addition(alloc: Global, node: &[&str; 4], count: u32) -> Result<Edit, Fail>
    ensures { IfOk result (λ edit. IsInOrder (edit_in edit)) }
{
    let [first, opens, closes, last] = *node;
    let opened = repeated(alloc, first, opens, count, "")?;
    let closed = repeated(alloc, opened.as_str(), closes, count, last)?;
    let line = repeated(alloc, "add \"p\" ", closed.as_str(), 1, "")?;
    change(alloc, line.as_str())
}

fn events_of(alloc: Global, model: &ModelTree, edit: &Edit) -> Result<u32, EditFault>
    requires { IsInOrder (edit_in edit.now) }
{
    let after = applied(alloc, model, edit)?;
    Ok(after.events())
}

fn events_after(
    alloc: Global,
    model: &ModelTree,
    node: &[&str; 4],
    count: u32,
) -> Result<Result<u32, EditFault>, Fail> {
    let edit = addition(alloc, node, count)?;
    Ok(events_of(alloc, model, &edit))
}

// how many events there are once a node is added to a Phase of so many
fn events_with(
    alloc: Global,
    events: u32,
    node: &[&str; 4],
    count: u32,
) -> Result<Result<u32, EditFault>, Fail> {
    let text = repeated(alloc, "Phase(\"p\"){", "Date(\"x\");", events, "};")?;
    let model = model(alloc, text.as_str())?;
    events_after(alloc, &model, node, count)
}

static LIMITS: [(u32, [&str; 4], u32, Result<u32, EditFault>); 9] = [
    (99, DATE, 0, Ok(100)),
    (100, DATE, 0, Err(EditFault::Limit(Limit::Events))),
    (98, DATES, 2, Ok(100)),
    (98, DATES, 3, Err(EditFault::Limit(Limit::Events))),
    // with "p" and the Phase around them
    (1, GROUPS, 58, Ok(1)),
    (1, GROUPS, 59, Err(EditFault::Limit(Limit::Groups))),
    // below "p"
    (1, TOWER, 15, Ok(1)),
    (1, TOWER, 16, Err(EditFault::Limit(Limit::Depth))),
    (100, BOUNDARY, 0, Err(EditFault::WrongKind(Kind::Phase))),
];

#[test]
fn limits(rt: HostRuntime) -> Result<(), Fail> {
    for (events, node, count, want) in &LIMITS {
        let with = events_with(rt.alloc(), *events, node, *count)?;
        assert_eq!(rt; with, *want);
    }
    Ok(())
}

fn after(alloc: Global, model: &ModelTree, edit: &Edit) -> Result<ModelTree, Fail>
    requires { IsInOrder (edit_in edit.now) }
{
    Ok(applied(alloc, model, edit)?)
}

// a model once "A" has a date
fn dated(alloc: Global, model: &ModelTree) -> Result<ModelTree, Fail> {
    let edit = change(alloc, "set \"A\" C_Date(-51);")?;
    after(alloc, model, &edit)
}

#[test]
fn curves(rt: HostRuntime) -> Result<(), Fail> {
    let model = site(rt.alloc())?;
    let after = dated(rt.alloc(), &model)?;
    let curve = after.curve().ok_or("no curve")?;
    assert_eq!(rt; curve.text(), "IntCal20.14c");
    Ok(())
}

#[test]
fn targets(rt: HostRuntime) -> Result<(), Fail> {
    let edit = change(rt.alloc(), "set \"A\" C_Date(-51);")?;
    assert_eq!(rt; edit.target().text(), "A");
    Ok(())
}
