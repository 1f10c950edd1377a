//! A host over files and standard output. It knows no content.
ghost use Rattle.std.specs.Prelude.{◌≡◌, ◌<◌, ◌≤◌, ℕ, List, None, false, length, string_bytes, IfOk, OnOk, OnErr, IfErr, IsErr};
ghost use Rattle.av_host.specs.Calls.{Rises, Stays, Opens, Creates, Counts as IsCounted, RaisesOpenings};
ghost use Rattle.av_host.specs.Memory.{faults_of, raised};
ghost use Rattle.av_host.specs.Silent.{silent_world};

use crate::host::{Failed, Host, HostError};
use crate::memory::raise;
use crate::parts::Counts;
use crate::real_files::{NamedFile, create_apart, patch_output, read_input, write_output};
use std::alloc::Global;
use std::rt::Files;
use std::{fs, io};

/// A host over the runtime's files and standard output, which knows no content. A name is a path.
///
/// `open_input`, `read`, `write` and `say` are one call of the runtime each, and nothing is kept in
/// a buffer. A call returns `Failed` exactly if a call of the runtime failed or took no byte of a
/// piece that isn't empty, or if the file of `create` is one of the open inputs. That file keeps
/// its bytes.
#[derive(Drop)]
pub struct RealHost<R: Files + Print> {
    pub(crate) rt: R,
    pub(crate) alloc: Global,
    pub(crate) inputs: Vec<R::File>,
    pub(crate) outputs: Vec<NamedFile<R::File>>,
    pub(crate) counts: Counts,
}

impl<R: Files + Print> RealHost<R> {
    /// A host with no open input and no output, and all four counts 0. It takes no memory, and
    /// keeps the allocator for the list of its open files.
    pub fn new(rt: R, alloc: Global) -> Self
        ensures held { (name : List ℕ) → (⟦<RealHost<R> as Host>⟧.world result).held name ≡ None }
        ensures inputs { (id : ℕ) → (⟦<RealHost<R> as Host>⟧.world result).inputs.is_open id ≡ false }
        ensures left { (id : ℕ) → (⟦<RealHost<R> as Host>⟧.world result).inputs.left id ≡ None }
        ensures names { (id : ℕ) → (⟦<RealHost<R> as Host>⟧.world result).outputs.name id ≡ None }
        ensures contents { (name : List ℕ)
            → (⟦<RealHost<R> as Host>⟧.world result).outputs.content name ≡ None }
        ensures said { (⟦<RealHost<R> as Host>⟧.world result).said ≡ None }
        ensures faults { (⟦<RealHost<R> as Host>⟧.world result).faults
            ≡ record { openings = 0; reads = 0; writes = 0; sayings = 0 } }
    {
        RealHost {
            rt,
            alloc,
            inputs: Vec::new(alloc),
            outputs: Vec::new(alloc),
            counts: Counts {
                openings: 0,
                reads: 0,
                writes: 0,
                sayings: 0,
            },
        }
    }
}

impl<R: Files + Print> Host for RealHost<R> {
    ghost world = { λ h. silent_world (λ o. string_bytes o.name)
        (length h.inputs.items) h.outputs.items (faults_of h.counts) };

    fn open_input(&mut self, name: &str) -> Result<u32, HostError>
        ensures opened { IfOk result (Opens (⟦<RealHost<R> as Host>⟧.world self.old) (⟦<RealHost<R> as Host>⟧.world self.new) name.now) }
        ensures refused { OnErr result (Stays (⟦<RealHost<R> as Host>⟧.world self.old) (⟦<RealHost<R> as Host>⟧.world self.new)) }
        ensures faults { IsCounted RaisesOpenings result (⟦<RealHost<R> as Host>⟧.world self.old).faults (⟦<RealHost<R> as Host>⟧.world self.new).faults }

        ensures raises { result ≡ Err HostError.Failed
            → (⟦<RealHost<R> as Host>⟧.world self.new).faults.openings ≡ raised (⟦<RealHost<R> as Host>⟧.world self.old).faults.openings }
    {
        let id = self.inputs.len();
        if id >= u32::MAX as usize {
            return Err(HostError::NoMemory);
        }
        self.inputs.reserve(1)?;
        let file = opened(fs::open(&self.rt, name), &mut self.counts.openings)?;
        match self.inputs.push(file) {
            Ok(()) => Ok(id as u32),
            Err(_) => unreachable!(),
        }
    }

    fn read(&mut self, id: u32, buf: &mut [u8]) -> Result<usize, Failed> {
        let got = read_input(&mut self.inputs, id, buf);
        moved(got, 0, &mut self.counts.reads)
    }

    fn create(&mut self, name: &str) -> Result<u32, HostError>
        ensures created { IfOk result (Creates (⟦<RealHost<R> as Host>⟧.world self.old) (⟦<RealHost<R> as Host>⟧.world self.new) name.now) }
        ensures refused { OnErr result (Stays (⟦<RealHost<R> as Host>⟧.world self.old) (⟦<RealHost<R> as Host>⟧.world self.new)) }
        ensures faults { IsCounted RaisesOpenings result (⟦<RealHost<R> as Host>⟧.world self.old).faults (⟦<RealHost<R> as Host>⟧.world self.new).faults }

        ensures raises { result ≡ Err HostError.Failed
            → (⟦<RealHost<R> as Host>⟧.world self.new).faults.openings ≡ raised (⟦<RealHost<R> as Host>⟧.world self.old).faults.openings }
    {
        // All memory is taken first, so that out of memory leaves the file as it is.
        let id = self.outputs.len();
        if id >= u32::MAX as usize {
            return Err(HostError::NoMemory);
        }
        self.outputs.reserve(1)?;
        let text = String::from_str(self.alloc, name)?;
        let created = create_apart(&self.rt, name, self.inputs.as_slice());
        let file = opened(created, &mut self.counts.openings)?;
        match self.outputs.push(NamedFile { name: text, file }) {
            Ok(()) => Ok(id as u32),
            Err(_) => unreachable!(),
        }
    }

    fn write(&mut self, id: u32, piece: &[u8]) -> Result<usize, HostError> {
        if piece.is_empty() {
            return Ok(0);
        }
        let taken = write_output(&mut self.outputs, id, piece);
        Ok(moved(taken, 1, &mut self.counts.writes)?)
    }

    fn patch(&mut self, id: u32, at: u64, piece: &[u8]) -> Result<(), Failed> {
        if patch_output(&mut self.outputs, id, at, piece) {
            Ok(())
        } else {
            raise(&mut self.counts.writes);
            Err(Failed)
        }
    }

    fn say(&mut self, piece: &[u8]) -> Result<usize, Failed> {
        if piece.is_empty() {
            return Ok(0);
        }
        let taken = self.rt.write_some(piece);
        moved(taken, 1, &mut self.counts.sayings)
    }
}

/// The file that the runtime opened. A failure is counted.
fn opened<F>(file: io::Result<F>, count: &mut u64) -> Result<F, HostError>
    ensures opened { IfOk result (λ f. file ≡ Ok f) }
    ensures fault { OnErr result (IsErr file) }
    ensures kind { IfErr result (λ e. e ≡ HostError.Failed) }
    ensures stays { OnOk result (count.new ≡ count.old) }
    ensures raises { OnErr result (count.new ≡ raised count.old) }
    ensures rises { OnErr result (Rises count.old count.new) }
{
    match file {
        Ok(file) => Ok(file),
        Err(_) => {
            raise(count);
            Err(HostError::Failed)
        }
    }
}

/// The number of bytes that the runtime moved. A failure, or fewer bytes than `lowest`, is counted.
fn moved(bytes: io::Result<usize>, lowest: usize, count: &mut u64) -> Result<usize, Failed>
    ensures moved { IfOk result (λ n. bytes ≡ Ok n) }
    ensures enough { IfOk result (λ n. lowest ≤ n) }
    ensures fault { OnErr result (IfOk bytes (λ n. n < lowest)) }
    ensures stays { OnOk result (count.new ≡ count.old) }
    ensures raises { OnErr result (count.new ≡ raised count.old) }
    ensures rises { OnErr result (Rises count.old count.new) }
{
    match bytes {
        Ok(n) if n >= lowest => Ok(n),
        _ => {
            raise(count);
            Err(Failed)
        }
    }
}
