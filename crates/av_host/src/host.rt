//! The calls of a host, and what a host means.
ghost use Rattle.std.specs.Prelude.{◌≡◌, ◌+◌, ◌<◌, ◌≤◌, [], ℕ, List, Some, take, length, IfOk, OnErr, MatchResult, IsTrue, IsSome};
ghost use Rattle.std.specs.Option.{ForSome};
ghost use Rattle.av_host.specs.World.{World};
ghost use Rattle.av_host.specs.Calls.{Stays, Opens, Reads, Creates, Changes, Says, appended, patched, Counts, RaisesOpenings, RaisesReads, RaisesWrites, RaisesSayings};

use av_base::NoMemory;
use std::alloc::AllocError;

/// The outside failed at this call, and the count of the call's kind rose.
#[derive(Clone, Copy, Debug, PartialEq, Eq)]
pub struct Failed;

/// Why a call failed. Nothing changed except, at `Failed`, a count.
#[derive(Clone, Copy, Debug, PartialEq, Eq)]
pub enum HostError {
    /// The outside failed at this call, and the count of the call's kind rose.
    Failed,
    /// Out of memory. All four counts stay.
    NoMemory,
}

impl From<Failed> for HostError {
    ghost use Rattle.std.specs.Prelude.{◌≡◌};
    ghost use Rattle.av_host.specs.declared.host.HostError.TheVariants as host;

    ghost from_gives = { λ _ e. e ≡ host.Failed };

    fn from(_failed: Failed) -> HostError {
        HostError::Failed
    }
}

impl From<NoMemory> for HostError {
    ghost use Rattle.std.specs.Prelude.{◌≡◌};
    ghost use Rattle.av_host.specs.declared.host.HostError.TheVariants as host;

    ghost from_gives = { λ _ e. e ≡ host.NoMemory };

    fn from(_refused: NoMemory) -> HostError {
        HostError::NoMemory
    }
}

impl From<AllocError> for HostError {
    ghost use Rattle.std.specs.Prelude.{◌≡◌};
    ghost use Rattle.av_host.specs.declared.host.HostError.TheVariants as host;

    ghost from_gives = { λ _ e. e ≡ host.NoMemory };

    fn from(_refused: AllocError) -> HostError {
        HostError::NoMemory
    }
}

/// The outside, as a program sees it: inputs and outputs by name, and a place to print.
///
/// A host means one `World`, and contracts see that:
///
/// - what each name holds as an input, which no call changes;
/// - which ids are open inputs, and what is left of each;
/// - which ids are outputs, each with its name, and what each created output holds, by its name;
/// - what was printed;
/// - four counts of faults: of openings (`open_input` and `create`), of reads, of writes (`write`
///   and `patch`) and of prints (`say`).
///
/// Names and contents are bytes. A host may know a content or not. One that it doesn't know is
/// `None`, and the clauses on it promise nothing. Ids, their names and the counts are always known.
///
/// The counts never fall. The result `Failed` raises the count of the call's kind and leaves the
/// other three, and every other result leaves all four. A count at 2^64 - 1 stays there, and
/// counts as risen. A call leaves all that its clauses don't name.
pub trait Host {
    /// What the host means.
    ghost world: { Self → World };

    /// Opens the input of that name, and returns a new id. All that the name holds is left of it.
    ///
    /// `Failed` if the outside can't open it, `NoMemory` if the host can't keep it. Then nothing is
    /// opened.
    fn open_input(&mut self, name: &str) -> Result<u32, HostError>
        ensures opened { IfOk result (Opens (world self.old) (world self.new) name.now) }
        ensures refused { OnErr result (Stays (world self.old) (world self.new)) }
        ensures faults { Counts RaisesOpenings result (world self.old).faults (world self.new).faults };

    /// Takes the first bytes of what is left of an open input into the start of the buffer, and
    /// returns their number. Into a buffer that isn't empty it gives at least one byte, or 0 only
    /// at the end.
    ///
    /// `Failed` if the outside can't read. Then all that was left is left.
    fn read(&mut self, id: u32, buf: &mut [u8]) -> Result<usize, Failed>
        requires { IsTrue ((world self.old).inputs.is_open id) }
        ensures read { IfOk result (λ n. Reads (world self.old) (world self.new) id (take n buf.new)) }
        ensures fits { IfOk result (λ n. n ≤ length buf.new) }
        // If the buffer isn't empty, nothing comes only at the end.
        ensures end { result ≡ Ok 0 → 0 < length buf.new → ForSome ((world self.old).inputs.left id) (λ left. left ≡ []) }
        ensures refused { OnErr result (Stays (world self.old) (world self.new)) }
        ensures faults { MatchResult result (λ _. (world self.new).faults ≡ (world self.old).faults)
            (λ _. RaisesReads (world self.old).faults (world self.new).faults) };

    /// Creates an empty output of that name, in place of any that there was, and returns a new id.
    /// An earlier output id of the name is no id any more.
    ///
    /// `Failed` if the outside can't create it, `NoMemory` if the host can't keep it. Then an
    /// earlier output of the name stays.
    fn create(&mut self, name: &str) -> Result<u32, HostError>
        ensures created { IfOk result (Creates (world self.old) (world self.new) name.now) }
        ensures refused { OnErr result (Stays (world self.old) (world self.new)) }
        ensures faults { Counts RaisesOpenings result (world self.old).faults (world self.new).faults };

    /// Adds the first bytes of the piece to the end of an output, and returns their number. Of a
    /// piece that isn't empty it takes at least one byte.
    ///
    /// `Failed` if the outside can't write, `NoMemory` if the host can't keep the bytes. Then no
    /// byte is added.
    fn write(&mut self, id: u32, piece: &[u8]) -> Result<usize, HostError>
        requires { IsSome ((world self.old).outputs.name id) }
        ensures written { IfOk result (λ n. Changes (world self.old) (world self.new) id (appended (take n piece.now))) }
        ensures fits { IfOk result (λ n. n ≤ length piece.now) }
        ensures some { IfOk result (λ n. 0 < length piece.now → 0 < n) }
        ensures refused { OnErr result (Stays (world self.old) (world self.new)) }
        ensures faults { Counts RaisesWrites result (world self.old).faults (world self.new).faults };

    /// Puts the whole piece over bytes that were written, from byte `at` of the output on, counted
    /// from 0. Later writes go on at the end.
    ///
    /// `Failed` if the outside can't write. A content that is known then stays.
    fn patch(&mut self, id: u32, at: u64, piece: &[u8]) -> Result<(), Failed>
        requires id { IsSome ((world self.old).outputs.name id) }
        requires written { (name bytes : List ℕ) → (world self.old).outputs.name id ≡ Some name
            → (world self.old).outputs.content name ≡ Some (Some bytes) → at + length piece.now ≤ length bytes }
        ensures patched { IfOk result (λ _. Changes (world self.old) (world self.new) id (patched at piece.now)) }
        ensures refused { OnErr result (Stays (world self.old) (world self.new)) }
        ensures faults { MatchResult result (λ _. (world self.new).faults ≡ (world self.old).faults)
            (λ _. RaisesWrites (world self.old).faults (world self.new).faults) };

    /// Prints the first bytes of the piece, and returns their number. Of a piece that isn't empty it
    /// takes at least one byte.
    ///
    /// `Failed` if the outside can't take it. Then nothing is printed.
    fn say(&mut self, piece: &[u8]) -> Result<usize, Failed>
        ensures said { IfOk result (λ n. Says (world self.old) (world self.new) (take n piece.now)) }
        ensures fits { IfOk result (λ n. n ≤ length piece.now) }
        ensures some { IfOk result (λ n. 0 < length piece.now → 0 < n) }
        ensures refused { OnErr result (Stays (world self.old) (world self.new)) }
        ensures faults { MatchResult result (λ _. (world self.new).faults ≡ (world self.old).faults)
            (λ _. RaisesSayings (world self.old).faults (world self.new).faults) };
}
