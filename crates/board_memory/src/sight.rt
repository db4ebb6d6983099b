//! What instructions only read.
use crate::words::Words;
use pmp_regions::Pmp;
use rv32_entries::Entry;
use tk_base::Addr;

/// All that a process reaches but RAM. It is only read, and so can be passed on beside RAM.
#[derive(Drop)]
pub struct Sight<'a> {
    /// The bytes of flash.
    pub flash: &'a [u8],
    /// The registers.
    pub pmp: &'a Pmp,
    /// The bytes of flash from which every fetch is permitted, so that most fetches need no search.
    pub(crate) code: &'a [u8],
    /// The address of the first of them.
    pub(crate) code_start: Addr,
    /// Of each even place of these bytes the instruction there, or nothing known.
    pub(crate) known: &'a [Entry],
    /// The bytes of RAM in which every load and store is permitted.
    pub(crate) near: Words,
}
