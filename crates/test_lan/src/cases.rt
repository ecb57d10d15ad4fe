//! How a test asserts: it says all that must hold at once, since each branch and each local costs a test its proof.
use std::process::Abort;

/// Asserts that all of these hold. The failure names the first that doesn't, counted from 0.
pub fn all(rt: &impl Abort, said: &[bool]) {
    for (index, holds) in said.iter().enumerate() {
        assert!(rt; *holds, "statement {index}");
    }
}
