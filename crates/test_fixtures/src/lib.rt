//! Readers, writers and types for tests. Each of them is proved to satisfy the contract of the
//! trait that it implements.
#![tactic(auto)]

pub mod counter;
pub mod cow_octets;
pub mod day;
pub mod half_written;
pub mod hasty;
pub mod month;
pub mod nest;
pub mod octet;
pub mod ranked;
pub mod recorder;
pub mod sequence;
pub mod slicing_reader;
pub mod turns;
pub mod unread;
pub mod written_month;
pub mod zeros;
