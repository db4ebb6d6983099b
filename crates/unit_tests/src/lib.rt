//! Tests of what no clause says of the lower crates: worked cases from the manuals, memory that is found, the system's
//! adapters. They have a crate of their own, since a crate with tests is proved twice.
#![tactic(auto)]

#[cfg(test)]
mod board_devices_tests;
#[cfg(test)]
mod gathered_output_tests;
#[cfg(test)]
mod grant_model_tests;
#[cfg(test)]
mod image_make_tests;
#[cfg(test)]
mod pmp_regions_tests;
#[cfg(test)]
mod process_layout_tests;
#[cfg(test)]
mod rv32_compressed_tests;
#[cfg(test)]
mod rv32_decode_tests;
#[cfg(test)]
mod rv32_model_tests;
#[cfg(test)]
mod rv32_step_tests;
#[cfg(test)]
mod tbf_headers_tests;
#[cfg(test)]
mod tk_outside_tests;
