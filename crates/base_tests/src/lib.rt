//! Tests of the small libraries, by their public calls.
#![tactic(auto)]

#[cfg(test)]
mod boards;
#[cfg(test)]
mod cow_tables;
#[cfg(test)]
mod data_types;
#[cfg(test)]
mod file_shelves;
#[cfg(test)]
mod given;
#[cfg(test)]
mod level_maps;
#[cfg(test)]
mod memory_shelves;
#[cfg(test)]
mod memory_sinks;
#[cfg(test)]
mod output_sinks;
#[cfg(test)]
mod units;
