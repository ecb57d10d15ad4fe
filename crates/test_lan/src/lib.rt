//! Tests of two hosts on a simulated link and of their scripts: what no clause says, by public calls alone. What a line of input says is
//! data of a program instead. Alongside them small callers with their contracts (`uses`).
#![tactic(auto)]

#[cfg(test)]
mod cases;
#[cfg(test)]
mod uses;
#[cfg(test)]
mod worlds;
