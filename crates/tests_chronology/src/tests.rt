//! One file for each subject.
mod codes;
mod grids;
mod limits;
mod names;
mod site;
mod texts;
