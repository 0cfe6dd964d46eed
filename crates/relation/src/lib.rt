// The relations that a sheet's rules give, in words of bits: rules in bytes, what closes before what, what yields to what, and the tests of the verdict.
#![tactic(auto)]

mod chains;
pub mod count;
mod kind;
pub mod layout;
pub mod relations;
mod rules;
pub mod scan;
mod verdict;
pub mod words;
