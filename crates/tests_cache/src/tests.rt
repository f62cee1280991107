//! One file for each subject, and what they share.
mod capacities;
mod claims;
mod marks;
mod rings;
mod work;
