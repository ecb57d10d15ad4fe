//! Tests of a host on a link of turns and answers, over bytes in memory, and of the texts of its errors.

mod answers;
mod texts;
mod turns;
