//! The nodes and the curve of statements whose arguments were read.
ghost use Rattle.std.specs.Prelude.{◌≡◌, IfOk, true};
ghost use Rattle.cg_model.specs.Dating.{dating_of};
ghost use Rattle.cg_model.specs.Node.{tree_of};
ghost use Rattle.cg_grammar.specs.Done.{is_event};
ghost use Rattle.cg_grammar.specs.Arguments.{is_call, name_in, file_in, dating_in, event_in, year_in, is_year, is_file, with_ending};
ghost use Rattle.cg_grammar.specs.View.{given_of};

use cg_grammar::{Command, Given, has_ending, is_zero};
use cg_model::{Dating, Name, Node};
use cg_num::{Decimal, NoMemory, Year};
use cg_text::name_of;
use std::alloc::Global;

/// The name that the arguments give.
pub fn name_in<'a>(given: &Given<'a>) -> &'a str
    ensures { result.now ≡ name_in (given_of given.now) }
{
    match given {
        Given::Nothing => "",
        Given::One(name) | Given::Two(name, _) => name,
        Given::Value(name, _) | Given::Values(name, _, _) => match name {
            Some(name) => name,
            None => "",
        },
    }
}

fn year_in(number: i64) -> Year
    requires { is_year number ≡ true }
    ensures { result ≡ year_in number }
{
    match Year::of_calendar(number / 1_000) {
        Some(year) => year,
        None => unreachable!(),
    }
}

/// The dating that the arguments state.
fn dating_in(command: Command, given: &Given) -> Dating
    requires { is_call command (given_of given.now) ≡ true }
    ensures { dating_of result ≡ dating_in command (given_of given.now) }
{
    match (command, given) {
        (Command::CDate, Given::Value(_, year)) => Dating::Exact(year_in(*year)),
        (Command::CDate, Given::Values(_, year, error)) => {
            if is_zero(*error) {
                Dating::Exact(year_in(*year))
            } else {
                Dating::Normal(year_in(*year), Decimal::within(*error))
            }
        }
        (Command::RDate, Given::Values(_, age, error)) => Dating::Carbon(
            Decimal::within(*age),
            Decimal::within(*error),
        ),
        _ => Dating::Free,
    }
}

/// The event of a statement.
pub fn event_in(alloc: Global, command: Command, given: &Given) -> Result<Node, NoMemory>
    requires whole { is_call command (given_of given.now) ≡ true }
    requires event { is_event command ≡ true }
    ensures { IfOk result (λ node. tree_of node ≡ event_in command (given_of given.now)) }
{
    let name = name_of(alloc, name_in(given))?;
    match command {
        Command::Boundary => Ok(Node::Boundary(name)),
        _ => Ok(Node::Leaf(name, dating_in(command, given))),
    }
}

/// The name of a curve's file, with its ending.
#[tactic(auto, unfolding(cg_grammar::specs::Arguments::with_ending))]
pub fn with_ending(alloc: Global, file: &str) -> Result<Name, NoMemory>
    requires { is_file file.now ≡ true }
    ensures { IfOk result (λ name. name ≡ with_ending file.now) }
{
    if has_ending(file.as_bytes()) {
        return name_of(alloc, file);
    }
    let mut text = String::from_str(alloc, file)?;
    text.push_str(".14c")?;
    name_of(alloc, text.as_str())
}

/// The curve that the arguments name: the last text, with its ending.
pub fn file_in(alloc: Global, given: &Given) -> Result<Name, NoMemory>
    requires { is_call Command.Curve (given_of given.now) ≡ true }
    ensures { IfOk result (λ name. name ≡ file_in (given_of given.now)) }
{
    match given {
        Given::One(file) | Given::Two(_, file) => with_ending(alloc, file),
        _ => name_of(alloc, ""),
    }
}
