//! What a store tells of its pins: their names in their cells, whether they drive, the pins on a net and
//! the net's driver; with the laws of pins, instances and their numbers.
#![tactic(auto)]

mod pins;

pub use pins::{driver_at, drives, is_driving, net_driver, own_name, pins_on};
