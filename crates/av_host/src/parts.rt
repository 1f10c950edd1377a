//! What a host keeps.
ghost use Rattle.std.specs.Prelude.{◌<◌, ◌≤◌, length, vec_capacity};
ghost use Rattle.av_host.specs.Bounds.{said_room};

use std::alloc::Global;

/// How many bytes a host in memory has room to print.
pub(crate) const SAID_ROOM: usize = 65536;

/// A name and the bytes that it has.
#[derive(Drop)]
pub struct NamedBytes {
    pub(crate) name: String,
    pub(crate) bytes: Vec<u8>,
}

/// An open input, and how much of it was read.
#[derive(Drop)]
pub struct Source {
    pub(crate) bytes: Vec<u8>,
    pub(crate) at: usize,
    ghost within: { at ≤ length bytes.items },
}

/// What was printed. All its room is there from the start, so that printing takes no memory.
#[derive(Drop)]
pub struct Said {
    pub(crate) bytes: Vec<u8>,
    ghost reserved: { said_room ≤ vec_capacity bytes },
    ghost within: { length bytes.items ≤ said_room },
}

/// How often the outside has failed, by the kind of the call.
#[derive(Drop)]
pub struct Counts {
    pub(crate) openings: u64,
    pub(crate) reads: u64,
    pub(crate) writes: u64,
    pub(crate) sayings: u64,
}

/// How many calls were made, and which calls fail.
#[derive(Drop)]
pub struct CallPlan {
    pub(crate) made: u64,
    pub(crate) failing: Vec<u64>,
}

/// A host in memory, which knows everything. It can be set to fail at chosen calls, to give few
/// bytes at each read, and to take few at each write.
///
/// It fails exactly at the calls that `fail_call` named, at an `open_input` of a name that was not
/// added, and at a `say` that has no room left.
#[derive(Drop)]
pub struct MemoryHost {
    pub(crate) alloc: Global,
    pub(crate) files: Vec<NamedBytes>,
    pub(crate) sources: Vec<Source>,
    pub(crate) made: Vec<NamedBytes>,
    pub(crate) said: Said,
    pub(crate) counts: Counts,
    pub(crate) plan: CallPlan,
    pub(crate) read_bound: usize,
    ghost gives: { 0 < read_bound },
    pub(crate) write_bound: usize,
    ghost takes: { 0 < write_bound },
}
