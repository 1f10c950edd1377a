//! The bytes of a plane.
//!
//! The layers above know nothing of how the bytes are kept. An edit writes them, and a frame only reads them.
ghost use Rattle.std.specs.Prelude.{◌≡◌, ◌+◌, ◌<◌, ◌≤◌, ◌^◌, ◌++◌, ℕ, length, replicate, slice_index, vec_len, vec_capacity, IfOk};
ghost use Rattle.std.specs.Simd.Lanes.{chunk, put_chunk};
ghost use Rattle.av_frame.specs.Geometries.{place};
ghost use Rattle.av_frame.specs.Pages.{filled};
ghost use Rattle.av_frame.specs.Rasters.{row_by};

use crate::frame::Frame;
use crate::geometry::{Geometry, place_of};
use crate::kernel::Kernel;
use crate::rows::RowMap;
use av_base::NoMemory;
use std::alloc::Global;
use std::marker::Model;

/// The bytes of a plane. Contracts see the list of them, in which those that aren't written yet are 0. There is room for
/// all of them from the beginning, so that each is written once where they are written in order.
#[derive(Drop)]
pub struct Page {
    bytes: Vec<u8>,
    count: usize,
}

impl Model for Page {
    ghost use Rattle.std.specs.Prelude.{ℕ, ◌≤◌, List, vec_len, vec_capacity};
    ghost use Rattle.av_frame.specs.Pages.{filled};

    ghost Value = { List ℕ };

    ghost view = { λ p. filled p.count p.bytes.items };

    ghost invariant = { λ p. (vec_len p.bytes ≤ p.count) × (p.count ≤ vec_capacity p.bytes) };
}

/// Writes zeros until the bytes before `end` are written.
fn reach(bytes: &mut Vec<u8>, end: usize, count: usize)
    requires end { end ≤ count }
    requires written { vec_len bytes.old ≤ count }
    requires room { count ≤ vec_capacity bytes.old }
    ensures reached { end ≤ vec_len bytes.new }
    ensures written { vec_len bytes.new ≤ count }
    ensures room { count ≤ vec_capacity bytes.new }
    ensures same { filled count bytes.new.items ≡ filled count bytes.old.items }
{
    if bytes.len() < end {
        let _done = bytes.resize(end, 0);
    }
}

/// Writes bytes after those that are written.
fn append(bytes: &mut Vec<u8>, part: &[u8], count: usize)
    requires inside { vec_len bytes.old + length part.now ≤ count }
    requires room { count ≤ vec_capacity bytes.old }
    ensures items { bytes.new.items ≡ bytes.old.items ++ part.now }
    ensures written { vec_len bytes.new ≤ count }
    ensures room { count ≤ vec_capacity bytes.new }
{
    let _done = bytes.extend_from_slice(part);
}

/// Copies one byte of each row, from a row on.
fn read_down(bytes: &[u8], geometry: Geometry, row: u32, column: u32, out: &mut [u8])
    requires high { row + length out.old ≤ geometry.height }
    requires inside { (i : ℕ) → i < length out.old → place geometry (row + i) + column < length bytes.now }
    ensures { (i : ℕ) → i < length out.old → slice_index out.new i ≡ slice_index bytes.now (place geometry (row + i) + column) }
{
    for i in 0..out.len() {
        out[i] = bytes[place_of(geometry, row + i as u32) + column as usize];
    }
}

fn write_at(all: &mut [u8], at: usize, bytes: &[u8])
    requires { at + length bytes.now ≤ length all.old }
    ensures { all.new ≡ put_chunk at all.old bytes.now }
{
    all[at..at + bytes.len()].copy_from_slice(bytes);
}

fn paint_at<K: Kernel>(
    all: &mut [u8],
    at: usize,
    count: usize,
    kernel: &K,
    sources: &mut [Frame],
    plane: u32,
    row: u32,
)
    requires inside { at + count ≤ length all.old }
    requires narrow { count < 2 ^ 32 }
    requires fits { (c : ℕ) → c < count → K.fits kernel.now sources.old plane row c }
    requires small { (c : ℕ) → c < count → K.value kernel.now sources.old plane row c < 256 }
    ensures painted { all.new ≡ put_chunk at all.old (row_by count (K.value kernel.now sources.old plane row)) }
    ensures same { sources.new ≡ sources.old }
{
    kernel.row(sources, plane, row, &mut all[at..at + count]);
}

/// That bytes are below 256, which is known where they are passed. It does nothing.
fn are_bytes(_bytes: &[u8])
    ensures { (c : ℕ) → slice_index _bytes.now c < 256 }
{}

fn map_at<M: RowMap>(all: &mut [u8], at: usize, count: usize, map: &M, plane: u32)
    requires inside { at + count ≤ length all.old }
    requires plane { plane < 4 }
    ensures mapped { all.new ≡ put_chunk at all.old (row_by count (M.value map.now plane (chunk at count all.old))) }
    ensures small { (c : ℕ) → c < count → M.value map.now plane (chunk at count all.old) c < 256 }
{
    map.map_row(plane, &mut all[at..at + count]);
    are_bytes(all);
}

impl Page {
    /// So many bytes of 0.
    ///
    /// # Errors
    /// Out of memory.
    pub fn blank(alloc: Global, count: usize) -> Result<Page, NoMemory>
        ensures { IfOk result (λ p. p ≡ replicate count 0) }
    {
        let bytes = Vec::with_capacity(alloc, count)?;
        Ok(Page { bytes, count })
    }

    /// The same bytes, in memory of their own.
    ///
    /// # Errors
    /// Out of memory.
    pub fn copy(&self, alloc: Global) -> Result<Page, NoMemory>
        ensures { IfOk result (λ p. p ≡ self.now) }
    {
        let mut bytes = Vec::with_capacity(alloc, self.count)?;
        let _done = bytes.extend_from_slice(&self.bytes);
        Ok(Page {
            bytes,
            count: self.count,
        })
    }

    /// Copies the bytes from the place `at` on into all of `out`.
    pub fn read(&mut self, at: usize, out: &mut [u8])
        requires { at + length out.old ≤ length self.old }
        ensures out { out.new ≡ chunk at (length out.old) self.old }
        ensures same { self.new ≡ self.old }
    {
        let count = self.count;
        let end = at + out.len();
        reach(&mut self.bytes, end, count);
        out.copy_from_slice(&self.bytes[at..end]);
    }

    /// Copies the bytes in a column of the rows from `row` on into all of `out`.
    pub fn column(&mut self, geometry: Geometry, row: u32, column: u32, out: &mut [u8])
        requires high { row + length out.old ≤ geometry.height }
        requires inside { (i : ℕ) → i < length out.old → place geometry (row + i) + column < length self.old }
        ensures out { (i : ℕ) → i < length out.old → slice_index out.new i ≡ slice_index self.old (place geometry (row + i) + column) }
        ensures same { self.new ≡ self.old }
    {
        reach(&mut self.bytes, self.count, self.count);
        read_down(&self.bytes, geometry, row, column, out);
    }

    /// Writes the bytes from the place `at` on.
    pub fn write(&mut self, at: usize, bytes: &[u8])
        requires { at + length bytes.now ≤ length self.old }
        ensures { self.new ≡ put_chunk at self.old bytes.now }
    {
        reach(&mut self.bytes, at, self.count);
        if self.bytes.len() == at {
            append(&mut self.bytes, bytes, self.count);
            return;
        }
        reach(&mut self.bytes, at + bytes.len(), self.count);
        write_at(&mut self.bytes, at, bytes);
    }

    /// Has a kernel write its row over the `count` bytes from the place `at` on.
    pub fn paint<K: Kernel>(
        &mut self,
        at: usize,
        count: usize,
        kernel: &K,
        sources: &mut [Frame],
        plane: u32,
        row: u32,
    )
        requires inside { at + count ≤ length self.old }
        requires narrow { count < 2 ^ 32 }
        requires fits { (c : ℕ) → c < count → K.fits kernel.now sources.old plane row c }
        requires small { (c : ℕ) → c < count → K.value kernel.now sources.old plane row c < 256 }
        ensures painted { self.new ≡ put_chunk at self.old (row_by count (K.value kernel.now sources.old plane row)) }
        ensures same { sources.new ≡ sources.old }
    {
        reach(&mut self.bytes, at + count, self.count);
        paint_at(&mut self.bytes, at, count, kernel, sources, plane, row);
    }

    /// Has a map rewrite the `count` bytes from the place `at` on.
    pub fn map<M: RowMap>(&mut self, at: usize, count: usize, map: &M, plane: u32)
        requires inside { at + count ≤ length self.old }
        requires plane { plane < 4 }
        ensures mapped { self.new ≡ put_chunk at self.old (row_by count (M.value map.now plane (chunk at count self.old))) }
        ensures small { (c : ℕ) → c < count → M.value map.now plane (chunk at count self.old) c < 256 }
    {
        reach(&mut self.bytes, at + count, self.count);
        map_at(&mut self.bytes, at, count, map, plane);
    }
}
