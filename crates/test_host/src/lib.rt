//! Tests of one host: what no clause says, by public calls alone. What a line of input says is data of a program instead.
#![tactic(auto)]

#[cfg(test)]
mod cases;
#[cfg(test)]
mod hosts;
