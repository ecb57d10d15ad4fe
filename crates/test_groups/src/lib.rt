//! Tests of the messages of multicast groups and of routers, and of the rules of members, with values from outside.
#![tactic(auto)]

#[cfg(test)]
mod queries;
#[cfg(test)]
mod reports;
#[cfg(test)]
mod routers;
