// The bytes, the lengths and the numbers for the code, each named once. Tokens, trees and rows stand in the specification.
#![tactic(auto)]

pub mod bytes;
pub mod limits;
pub mod refusal;
pub mod token;
