//! What a host tells of the multicast groups that it listens to, and when: the rules of members of
//! IGMP (RFC 1112, 2236 and 3376) and of MLD (RFC 2710 and 3810).
//!
//! Moments are microseconds, from 0 to 2^61.
#![tactic(auto)]

mod counts;
pub mod laws;
mod member;
mod mode;
mod querier;
mod query;
mod table;
pub mod table_laws;

pub use counts::{counts_v4, counts_v6, is_reported_v4, is_reported_v6};
pub use member::Member;
pub use mode::{CompatibilityMode, Told};
pub use querier::Querier;
pub use query::{answer_at, igmp_max_micros, mld_max_micros};
pub use table::{
    GROUP_ROOM, GroupTable, GroupTableFull, Row, forget_all, is_row_due, row_index_of, slot_of,
    soonest,
};
