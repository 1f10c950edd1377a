//! The calls of a host in memory. Besides the trait's clauses each states exactly when it fails,
//! how much it takes, and that it counts as one call.
ghost use Rattle.std.specs.Prelude.{◌≡◌, ◌+◌, ◌<◌, ◌≤◌, ◌||◌, ◌&&◌, [], ℕ, List, Some, take, drop, length, min, nat_lt, ◌==◌, is_none, is_err, IfOk, OnErr, MatchResult, IsTrue, IsSome};
ghost use Rattle.std.specs.Option.{ForSome};
ghost use Rattle.av_host.specs.Calls.{Stays, Opens, Reads, Creates, Changes, Says, appended, patched, Counts, RaisesOpenings, RaisesReads, RaisesWrites, RaisesSayings};
ghost use Rattle.av_host.specs.Memory.{memory_world, fails_now, read_bound, write_bound, room_to_say, raised, is_failed, CountsCall};

use crate::host::{Failed, Host, HostError};
use crate::memory::{
    add_made, add_source, append_to, last_of, next_fails, patch_made, raise, take_from, take_said,
};
use crate::parts::{MemoryHost, SAID_ROOM};

impl Host for MemoryHost {
    ghost world = { memory_world };

    fn open_input(&mut self, name: &str) -> Result<u32, HostError>
        ensures opened { IfOk result (Opens (memory_world self.old) (memory_world self.new) name.now) }
        ensures refused { OnErr result (Stays (memory_world self.old) (memory_world self.new)) }
        ensures faults { Counts RaisesOpenings result
            (memory_world self.old).faults (memory_world self.new).faults }

        ensures fails { is_failed result
            ≡ (fails_now self.old || is_none ((memory_world self.old).held name.now)) }
        ensures raises { result ≡ Err HostError.Failed
            → (memory_world self.new).faults.openings ≡ raised (memory_world self.old).faults.openings }
        ensures counted { CountsCall self.old self.new }
    {
        if next_fails(&mut self.plan) {
            raise(&mut self.counts.openings);
            return Err(HostError::Failed);
        }
        let bytes = match last_of(&self.files, name) {
            Some(file) => file.bytes.to_vec(self.alloc)?,
            None => {
                raise(&mut self.counts.openings);
                return Err(HostError::Failed);
            }
        };
        Ok(add_source(&mut self.sources, bytes)?)
    }

    fn read(&mut self, id: u32, buf: &mut [u8]) -> Result<usize, Failed>
        requires { IsTrue ((memory_world self.old).inputs.is_open id) }
        ensures read { IfOk result (λ n.
            Reads (memory_world self.old) (memory_world self.new) id (take n buf.new)) }
        ensures fits { IfOk result (λ n. n ≤ length buf.new) }
        ensures end { result ≡ Ok 0 → 0 < length buf.new
            → ForSome ((memory_world self.old).inputs.left id) (λ left. left ≡ []) }
        ensures refused { OnErr result (Stays (memory_world self.old) (memory_world self.new)) }
        ensures faults { MatchResult result (λ _. (memory_world self.new).faults ≡ (memory_world self.old).faults)
            (λ _. RaisesReads (memory_world self.old).faults (memory_world self.new).faults) }

        ensures fails { is_err result ≡ fails_now self.old }
        ensures raises { OnErr result
            ((memory_world self.new).faults.reads ≡ raised (memory_world self.old).faults.reads) }
        ensures gives { IfOk result (λ n. ForSome ((memory_world self.old).inputs.left id)
            (λ left. n ≡ min (length left) (min (length buf.old) (read_bound self.old)))) }
        ensures rest { IfOk result (λ n. drop n buf.new ≡ drop n buf.old) }
        ensures unread { OnErr result (buf.new ≡ buf.old) }
        ensures counted { CountsCall self.old self.new }
    {
        if next_fails(&mut self.plan) {
            raise(&mut self.counts.reads);
            return Err(Failed);
        }
        let source = &mut self.sources[id as usize];
        let n = take_from(source, buf, self.read_bound);
        Ok(n)
    }

    fn create(&mut self, name: &str) -> Result<u32, HostError>
        ensures created { IfOk result (Creates (memory_world self.old) (memory_world self.new) name.now) }
        ensures refused { OnErr result (Stays (memory_world self.old) (memory_world self.new)) }
        ensures faults { Counts RaisesOpenings result
            (memory_world self.old).faults (memory_world self.new).faults }

        ensures fails { is_failed result ≡ fails_now self.old }
        ensures raises { result ≡ Err HostError.Failed
            → (memory_world self.new).faults.openings ≡ raised (memory_world self.old).faults.openings }
        ensures counted { CountsCall self.old self.new }
    {
        if next_fails(&mut self.plan) {
            raise(&mut self.counts.openings);
            return Err(HostError::Failed);
        }
        Ok(add_made(self.alloc, &mut self.made, name)?)
    }

    fn write(&mut self, id: u32, piece: &[u8]) -> Result<usize, HostError>
        requires { IsSome ((memory_world self.old).outputs.name id) }
        ensures written { IfOk result (λ n.
            Changes (memory_world self.old) (memory_world self.new) id (appended (take n piece.now))) }
        ensures fits { IfOk result (λ n. n ≤ length piece.now) }
        ensures some { IfOk result (λ n. 0 < length piece.now → 0 < n) }
        ensures refused { OnErr result (Stays (memory_world self.old) (memory_world self.new)) }
        ensures faults { Counts RaisesWrites result
            (memory_world self.old).faults (memory_world self.new).faults }

        ensures fails { is_failed result ≡ fails_now self.old }
        ensures raises { result ≡ Err HostError.Failed
            → (memory_world self.new).faults.writes ≡ raised (memory_world self.old).faults.writes }
        ensures takes { IfOk result (λ n. n ≡ min (length piece.now) (write_bound self.old)) }
        ensures counted { CountsCall self.old self.new }
    {
        if next_fails(&mut self.plan) {
            raise(&mut self.counts.writes);
            return Err(HostError::Failed);
        }
        let taken = piece.len().min(self.write_bound);
        let made = &mut self.made[id as usize];
        append_to(made, &piece[..taken])?;
        Ok(taken)
    }

    fn patch(&mut self, id: u32, at: u64, piece: &[u8]) -> Result<(), Failed>
        requires id { IsSome ((memory_world self.old).outputs.name id) }
        requires written { (name bytes : List ℕ)
            → (memory_world self.old).outputs.name id ≡ Some name
            → (memory_world self.old).outputs.content name ≡ Some (Some bytes)
            → at + length piece.now ≤ length bytes }
        ensures patched { IfOk result (λ _.
            Changes (memory_world self.old) (memory_world self.new) id (patched at piece.now)) }
        ensures refused { OnErr result (Stays (memory_world self.old) (memory_world self.new)) }
        ensures faults { MatchResult result (λ _. (memory_world self.new).faults ≡ (memory_world self.old).faults)
            (λ _. RaisesWrites (memory_world self.old).faults (memory_world self.new).faults) }

        ensures fails { is_err result ≡ fails_now self.old }
        ensures raises { OnErr result
            ((memory_world self.new).faults.writes ≡ raised (memory_world self.old).faults.writes) }
        ensures counted { CountsCall self.old self.new }
    {
        if next_fails(&mut self.plan) {
            raise(&mut self.counts.writes);
            return Err(Failed);
        }
        let made = &mut self.made[id as usize];
        patch_made(made, at as usize, piece);
        Ok(())
    }

    fn say(&mut self, piece: &[u8]) -> Result<usize, Failed>
        ensures said { IfOk result (λ n.
            Says (memory_world self.old) (memory_world self.new) (take n piece.now)) }
        ensures fits { IfOk result (λ n. n ≤ length piece.now) }
        ensures some { IfOk result (λ n. 0 < length piece.now → 0 < n) }
        ensures refused { OnErr result (Stays (memory_world self.old) (memory_world self.new)) }
        ensures faults { MatchResult result (λ _. (memory_world self.new).faults ≡ (memory_world self.old).faults)
            (λ _. RaisesSayings (memory_world self.old).faults (memory_world self.new).faults) }

        ensures fails { is_err result
            ≡ (fails_now self.old || (nat_lt 0 (length piece.now) && room_to_say self.old == 0)) }
        ensures raises { OnErr result
            ((memory_world self.new).faults.sayings ≡ raised (memory_world self.old).faults.sayings) }
        ensures takes { IfOk result (λ n. n ≡ min (length piece.now) (room_to_say self.old)) }
        ensures counted { CountsCall self.old self.new }
    {
        if next_fails(&mut self.plan) {
            raise(&mut self.counts.sayings);
            return Err(Failed);
        }
        if !piece.is_empty() && self.said.bytes.len() >= SAID_ROOM {
            raise(&mut self.counts.sayings);
            return Err(Failed);
        }
        let n = take_said(&mut self.said, piece);
        Ok(n)
    }
}
