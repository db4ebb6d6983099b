//! Makes and edits flash images.
//!
//! [`set_enabled`] and [`rename`] change one object of an image and nothing else, and [`pack_one`] packs
//! images one behind another. [`image_of`] makes the image and the script of a soak run from one number:
//! eight applications that write to the console again and again, each for as long and as slowly as random
//! draws say. [`attack_of`] makes those of ten hostile applications, each beside one that behaves.
#![tactic(auto)]

mod assembler;
mod attacks;
mod draws;
mod edits;
mod image;
mod laws;
mod packs;
mod program;

pub use attacks::attack_of;
pub use edits::{EditFault, rename, set_enabled};
pub use image::image_of;
pub use laws::{
    checksum_of_put, enabled_is_walked, flags_are_read, given_is_walked, names_are_read,
    objects_move_alike, one_object_changes, pack_is_walked, pack_keeps_contents, packed_is_walked,
    verdicts_move, words_are_decoded,
};
pub use packs::{PackFault, pack_one};
