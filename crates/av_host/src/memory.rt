//! A host in memory: how it is made, set up and inspected.
ghost use Rattle.std.specs.Prelude.{◌≡◌, ◌++◌, ◌+◌, ◌-◌, ◌^◌, ◌<◌, ◌≤◌, [], ◌∷◌, ℕ, List, Some, None, option_map, min, take, drop, length, false, IfOk, OnOk, OnErr};
ghost use Rattle.av_host.specs.Calls.{ChangesAt, AddsInput, AddsOutput, patched, Rises};
ghost use Rattle.av_host.specs.Bounds.{said_room};
ghost use Rattle.av_host.specs.Named.{last_named};
ghost use Rattle.av_host.specs.Memory.{memory_world, name_of, bytes_of, inputs_of, outputs_of, plan_fails, raised, calls_made, failing_calls, read_bound, write_bound, KeepsCalls};

use crate::parts::{CallPlan, Counts, MemoryHost, NamedBytes, SAID_ROOM, Said, Source};
use av_base::NoMemory;
use std::alloc::Global;

/// The last thing of that name.
pub(crate) fn last_of<'a>(list: &'a [NamedBytes], name: &str) -> Option<&'a NamedBytes>
    ensures { option_map (λ x. x.now) result ≡ last_named name_of list.now name.now }
{
    let mut found = None;
    for item in list {
        if item.name.as_str() == name {
            found = Some(item);
        }
    }
    found
}

/// One more, up to the last value.
pub(crate) fn raise(count: &mut u64)
    ensures rises { Rises count.old count.new }
    ensures exact { count.new ≡ raised count.old }
{
    *count = count.saturating_add(1);
}

/// Counts the call, and returns whether it fails.
pub(crate) fn next_fails(plan: &mut CallPlan) -> bool
    ensures fails { result ≡ plan_fails plan.old }
    ensures made { plan.new.made ≡ raised plan.old.made }
    ensures failing { plan.new.failing.items ≡ plan.old.failing.items }
{
    let call = plan.made;
    raise(&mut plan.made);
    plan.failing.contains(&call)
}

pub(crate) fn add_source(sources: &mut Vec<Source>, bytes: Vec<u8>) -> Result<u32, NoMemory>
    ensures ok { IfOk result (λ id.
        AddsInput (inputs_of sources.old.items) (inputs_of sources.new.items) id (Some bytes.items)) }
    ensures err { OnErr result (sources.new.items ≡ sources.old.items) }
{
    let id = sources.len();
    if id >= u32::MAX as usize {
        return Err(NoMemory);
    }
    sources.push(Source { bytes, at: 0 })?;
    Ok(id as u32)
}

/// Gives the next bytes of an input, and no more than `most`.
pub(crate) fn take_from(source: &mut Source, buf: &mut [u8], most: usize) -> usize
    requires { 0 < most }
    ensures fits { result ≤ length buf.new }
    ensures bytes { source.new.bytes.items ≡ source.old.bytes.items }
    ensures at { source.new.at ≡ source.old.at + result }
    ensures count { result
        ≡ min (length (drop source.old.at source.old.bytes.items)) (min (length buf.old) most) }
    ensures got { take result buf.new ≡ take result (drop source.old.at source.old.bytes.items) }
    ensures rest { drop result buf.new ≡ drop result buf.old }
    ensures end { result ≡ 0 → 0 < length buf.new → drop source.old.at source.old.bytes.items ≡ [] }
{
    let left = source.bytes.len() - source.at;
    let n = left.min(buf.len()).min(most);
    let end = source.at + n;
    buf[..n].copy_from_slice(&source.bytes[source.at..end]);
    source.at = end;
    n
}

pub(crate) fn add_made(
    alloc: Global,
    made: &mut Vec<NamedBytes>,
    name: &str,
) -> Result<u32, NoMemory>
    ensures ok { IfOk result (λ id.
        AddsOutput (outputs_of made.old.items) (outputs_of made.new.items) name.now id) }
    ensures err { OnErr result (made.new.items ≡ made.old.items) }
{
    let id = made.len();
    if id >= u32::MAX as usize {
        return Err(NoMemory);
    }
    let name = String::from_str(alloc, name)?;
    let bytes = Vec::new(alloc);
    made.push(NamedBytes { name, bytes })?;
    Ok(id as u32)
}

pub(crate) fn append_to(made: &mut NamedBytes, piece: &[u8]) -> Result<(), NoMemory>
    ensures name { name_of made.new ≡ name_of made.old }
    ensures ok { OnOk result (bytes_of made.new ≡ bytes_of made.old ++ piece.now) }
    ensures err { OnErr result (bytes_of made.new ≡ bytes_of made.old) }
{
    made.bytes.extend_from_slice(piece)?;
    Ok(())
}

fn patch_bytes(bytes: &mut [u8], at: usize, piece: &[u8])
    requires { at + length piece.now ≤ length bytes.old }
    ensures { bytes.new ≡ patched at piece.now bytes.old }
{
    let end = at + piece.len();
    bytes[at..end].copy_from_slice(piece);
}

pub(crate) fn patch_made(made: &mut NamedBytes, at: usize, piece: &[u8])
    requires { at + length piece.now ≤ length (bytes_of made.old) }
    ensures name { name_of made.new ≡ name_of made.old }
    ensures bytes { bytes_of made.new ≡ patched at piece.now (bytes_of made.old) }
{
    patch_bytes(made.bytes.as_mut_slice(), at, piece);
}

/// Prints what there is room for. It takes no memory, since the room is there.
pub(crate) fn take_said(said: &mut Said, piece: &[u8]) -> usize
    ensures count { result ≡ min (length piece.now) (said_room - length said.old.bytes.items) }
    ensures bytes { said.new.bytes.items ≡ said.old.bytes.items ++ take result piece.now }
{
    let n = piece.len().min(SAID_ROOM - said.bytes.len());
    match said.bytes.extend_from_slice(&piece[..n]) {
        Ok(()) => n,
        Err(_) => unreachable!(),
    }
}

impl MemoryHost {
    /// A host that holds no name, has no output, has printed nothing and has failed at no call. No
    /// call was made, none is to fail, and reads and writes have no bound.
    ///
    /// It takes the room for all that can be printed (`said_room`).
    pub fn new(alloc: Global) -> Result<MemoryHost, NoMemory>
        ensures held { IfOk result (λ h. (name : List ℕ) → (memory_world h).held name ≡ None) }
        ensures inputs { IfOk result (λ h. (id : ℕ) → (memory_world h).inputs.is_open id ≡ false) }
        ensures left { IfOk result (λ h. (id : ℕ) → (memory_world h).inputs.left id ≡ None) }
        ensures names { IfOk result (λ h. (id : ℕ) → (memory_world h).outputs.name id ≡ None) }
        ensures outputs { IfOk result (λ h.
            (name : List ℕ) → (memory_world h).outputs.content name ≡ Some None) }
        ensures said { IfOk result (λ h. (memory_world h).said ≡ Some []) }
        ensures faults { IfOk result (λ h.
            (memory_world h).faults ≡ record { openings = 0; reads = 0; writes = 0; sayings = 0 }) }
        ensures calls { IfOk result (λ h. calls_made h ≡ 0) }
        ensures failing { IfOk result (λ h. failing_calls h ≡ []) }
        ensures bound { IfOk result (λ h. read_bound h ≡ usize.MAX) }
        ensures taking { IfOk result (λ h. write_bound h ≡ usize.MAX) }
    {
        let bytes = Vec::with_capacity(alloc, SAID_ROOM)?;
        Ok(MemoryHost {
            alloc,
            files: Vec::new(alloc),
            sources: Vec::new(alloc),
            made: Vec::new(alloc),
            said: Said { bytes },
            counts: Counts {
                openings: 0,
                reads: 0,
                writes: 0,
                sayings: 0,
            },
            plan: CallPlan {
                made: 0,
                failing: Vec::new(alloc),
            },
            read_bound: usize::MAX,
            write_bound: usize::MAX,
        })
    }

    /// Gives a name these bytes as an input, in place of any that it had. Open inputs keep what
    /// they have left.
    ///
    /// At `NoMemory` all stays.
    pub fn add(&mut self, alloc: Global, name: &str, bytes: &[u8]) -> Result<(), NoMemory>
        ensures ok { OnOk result (ChangesAt
            (memory_world self.old).held (memory_world self.new).held name.now (Some bytes.now)) }
        ensures err { OnErr result ((memory_world self.new).held ≡ (memory_world self.old).held) }
        ensures inputs { (memory_world self.new).inputs ≡ (memory_world self.old).inputs }
        ensures outputs { (memory_world self.new).outputs ≡ (memory_world self.old).outputs }
        ensures said { (memory_world self.new).said ≡ (memory_world self.old).said }
        ensures faults { (memory_world self.new).faults ≡ (memory_world self.old).faults }
        ensures calls { KeepsCalls self.old self.new }
    {
        let name = String::from_str(alloc, name)?;
        let bytes = Vec::from_slice(alloc, bytes)?;
        self.files.push(NamedBytes { name, bytes })?;
        Ok(())
    }

    /// That call of the host, counted from 0, fails too. The six calls of `Host` count alike.
    ///
    /// At `NoMemory` all stays.
    pub fn fail_call(&mut self, _alloc: Global, call: u64) -> Result<(), NoMemory>
        ensures ok { OnOk result (failing_calls self.new ≡ failing_calls self.old ++ call ∷ []) }
        ensures err { OnErr result (failing_calls self.new ≡ failing_calls self.old) }
        ensures world { memory_world self.new ≡ memory_world self.old }
        ensures calls { calls_made self.new ≡ calls_made self.old }
        ensures bound { read_bound self.new ≡ read_bound self.old }
        ensures taking { write_bound self.new ≡ write_bound self.old }
    {
        // The list grows by the allocator that `new` was given.
        self.plan.failing.push(call)?;
        Ok(())
    }

    /// No read gives more than this many bytes, from now on.
    pub fn give_at_most(&mut self, bytes: usize)
        requires { 0 < bytes }
        ensures bound { read_bound self.new ≡ bytes }
        ensures world { memory_world self.new ≡ memory_world self.old }
        ensures calls { calls_made self.new ≡ calls_made self.old }
        ensures failing { failing_calls self.new ≡ failing_calls self.old }
        ensures taking { write_bound self.new ≡ write_bound self.old }
    {
        self.read_bound = bytes;
    }

    /// No write takes more than this many bytes, from now on. A patch is never cut.
    pub fn take_at_most(&mut self, bytes: usize)
        requires { 0 < bytes }
        ensures bound { write_bound self.new ≡ bytes }
        ensures world { memory_world self.new ≡ memory_world self.old }
        ensures calls { calls_made self.new ≡ calls_made self.old }
        ensures failing { failing_calls self.new ≡ failing_calls self.old }
        ensures giving { read_bound self.new ≡ read_bound self.old }
    {
        self.write_bound = bytes;
    }

    /// What the output of that name holds, and `None` exactly if none was created.
    pub fn output(&self, name: &str) -> Option<&[u8]>
        ensures { (memory_world self.now).outputs.content name.now
            ≡ Some (option_map (λ bytes. bytes.now) result) }
    {
        match last_of(&self.made, name) {
            Some(made) => Some(made.bytes.as_slice()),
            None => None,
        }
    }

    /// What was printed.
    pub fn said(&self) -> &[u8]
        ensures { (memory_world self.now).said ≡ Some result.now }
    {
        self.said.bytes.as_slice()
    }
}
