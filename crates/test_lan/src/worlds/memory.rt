//! Worlds where an allocation is refused. The test passes whichever one it is, and then says so (`tools/try-proved-without-memory` has
//! each one refused in turn): a world takes the refused event again, and answers it and all that follow as in the whole run.
//! (`tools/try-cases-without-memory` tries the scripts of `app_cases` so, too.)
use crate::worlds::common::Row;
use crate::worlds::steps::play_steps;
use crate::worlds::texts::{
    ABC, ACKNOWLEDGED, CARRIED, CUT_DATAGRAM, IP, OPENED, OPENING, QUEUED, STREAMS,
};
use std::test::Fail;

static ROWS: [Row; 3] = [
    ("a datagram", &[IP, QUEUED], CARRIED),
    (
        "a connection",
        &[STREAMS, OPENING, OPENED, ABC],
        ACKNOWLEDGED,
    ),
    ("a cut datagram", &[IP], CUT_DATAGRAM),
];

#[test]
fn a_world_proceeds(rt: HostRuntime) -> Result<(), Fail> {
    play_steps(&rt, &ROWS)
}
