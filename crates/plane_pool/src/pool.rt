//! Pools: slots of one number of words, and the search for a free one.
ghost use Rattle.std.specs.Prelude.{◌≡◌, ℕ, ◌+◌, ◌<◌, true, false, [], length, slice_set, IfOk, MatchResult, MatchOption};
ghost use Rattle.plane_pool.specs.Owners.{fresh_draft};
ghost use Rattle.plane_pool.specs.Pools.{IsSlotSize, Looked, Searched, Readies, Grants, Refuses, keeper_at};

use crate::draft::Draft;
use crate::keeper::Keeper;
use av_base::NoMemory;
use std::alloc::Global;
use std::marker::Model;

/// Slots of one number of data words. Contracts see that number, and of each slot its keeper: its table, whether it was
/// claimed and is still to be given, how often its keeper has looked at it, and the word that was found last.
#[derive(Drop)]
pub struct Pool {
    keepers: Vec<Keeper>,
    words: u32,
}

impl Model for Pool {
    ghost use Rattle.plane_pool.specs.Pools.{PoolView, pool_code, IsSlotSize, AreSized};

    ghost Value = { PoolView };

    ghost coded = { pool_code };

    ghost view = { λ p. record { words = p.words; keepers = p.keepers.items } };

    ghost invariant = { λ p. IsSlotSize p.words × AreSized p.words p.keepers.items };
}

/// The first keeper that has a slot to give.
fn find_giving(keepers: &[Keeper]) -> Option<usize>
    ensures { MatchOption result
        ((j : ℕ) → j < length keepers.now → (keeper_at keepers.now j).giving ≡ false)
        (λ i. (i < length keepers.now) × ((keeper_at keepers.now i).giving ≡ true)) }
{
    keepers.iter().position(|keeper| keeper.is_giving())
}

/// Lets one keeper after another look, until one finds its slot free.
fn look_all(keepers: &mut [Keeper]) -> Option<usize>
    requires { (j : ℕ) → j < length keepers.old → (keeper_at keepers.old j).giving ≡ false }
    ensures { MatchOption result
        ((j : ℕ) → j < length keepers.old → Looked (keeper_at keepers.old j) (keeper_at keepers.new j) false)
        (λ i. (i < length keepers.old) × Searched keepers.old keepers.new i × Looked (keeper_at keepers.old i) (keeper_at keepers.new i) true) }
{
    for i in 0..keepers.len() {
        if keepers[i].look() {
            return Some(i);
        }
    }
    None
}

impl Pool {
    /// A pool without slots, for slots of this number of data words, 1 to 2^24.
    ///
    /// # Errors
    /// Out of memory.
    pub fn new(alloc: Global, words: u32) -> Result<Pool, NoMemory>
        requires { IsSlotSize words }
        ensures { IfOk result (λ pool. pool ≡ record { words = words; keepers = [] }) }
    {
        Ok(Pool {
            keepers: Vec::new(alloc),
            words,
        })
    }

    /// How many slots were made. They are numbered from 0.
    pub fn slots(&self) -> u64
        ensures { result ≡ length self.now.keepers }
    {
        self.keepers.len() as u64
    }

    /// A draft of a slot that was found free: none of its words is written. A slot that was claimed before and not given
    /// comes first. A new slot is made only if each old one showed a word other than 0 in this call.
    ///
    /// # Errors
    /// Out of memory. A slot that was claimed is then still to be given.
    #[tactic(auto, using(crate::proofs::PoolLemmas::granted, crate::proofs::PoolLemmas::refused))]
    pub fn acquire(&mut self, alloc: Global) -> Result<Draft, NoMemory>
        ensures { MatchResult result (Grants self.old self.new) (λ _. Refuses self.old self.new) }
    {
        let number = self.ready(alloc)?;
        self.grant_at(number)
    }

    /// The number of a slot that is to be given.
    fn ready(&mut self, alloc: Global) -> Result<usize, NoMemory>
        ensures { MatchResult result (Readies self.old self.new) (λ _. Refuses self.old self.new) }
    {
        if let Some(i) = find_giving(self.keepers.as_slice()) {
            return Ok(i);
        }
        if let Some(i) = look_all(&mut self.keepers[..]) {
            return Ok(i);
        }
        self.add(alloc)
    }

    /// Makes a slot, which its keeper claims. Returns its number.
    fn add(&mut self, alloc: Global) -> Result<usize, NoMemory>
        ensures { MatchResult result
            (λ i. (i ≡ length self.old.keepers) × (self.new.words ≡ self.old.words) × (length self.new.keepers ≡ length self.old.keepers + 1)
            × ((j : ℕ) → j < length self.old.keepers → keeper_at self.new.keepers j ≡ keeper_at self.old.keepers j) × ((keeper_at self.new.keepers i).giving ≡ true))
            (λ _. self.new ≡ self.old) }
    {
        let keeper = Keeper::new(alloc, self.words)?;
        let number = self.keepers.len();
        self.keepers.push(keeper)?;
        let _ = self.keepers[number].look();
        Ok(number)
    }

    /// Gives the slot with this number, which was claimed.
    fn grant_at(&mut self, i: usize) -> Result<Draft, NoMemory>
        requires { (i < length self.old.keepers) × ((keeper_at self.old.keepers i).giving ≡ true) }
        ensures granted { MatchResult result
            (λ draft. (draft ≡ fresh_draft (keeper_at self.old.keepers i).table i self.old.words)
            × (self.new ≡ record self.old { keepers = slice_set self.old.keepers i (record (keeper_at self.old.keepers i) { giving = false }) }))
            (λ _. self.new ≡ self.old) }
        ensures free { (keeper_at self.old.keepers i).found ≡ 0 }
    {
        self.keepers[i].grant(i as u64)
    }
}
