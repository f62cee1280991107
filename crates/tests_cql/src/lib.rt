//! Tests of the reader of OxCal's model files, and of its tokens and grammar, by public calls alone.
#![tactic(auto)]

#[cfg(test)]
mod arguments;
#[cfg(test)]
mod beginnings;
#[cfg(test)]
mod commands;
#[cfg(test)]
mod curves;
#[cfg(test)]
mod faults;
#[cfg(test)]
mod limits;
#[cfg(test)]
mod models;
#[cfg(test)]
mod shown;
#[cfg(test)]
mod statements;
#[cfg(test)]
mod tokens;
