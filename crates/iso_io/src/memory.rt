ghost use Rattle.std.specs.Prelude.{◌≡◌, ℕ, ◌<◌, ◌≤◌, ◌++◌, [], length, take, drop, min, Some, OnErr, OnOk, IfOk, IsOk, IsErr, IsTrue, ◌↔◌};
ghost use Rattle.std.specs.Io.{ReadsAtMost, WritesAtMost};
ghost use Rattle.std.specs.Io.KnownBytes.{ReadConsumes, WriteAppends};
ghost use Rattle.iso_io.specs.Moves.{HasRisen};
ghost use Rattle.iso_io.specs.Streams.{next_fails};

use crate::traits::{Failed, Sink, Source};
use iso_types::Items;
use std::alloc::Global;
use std::marker::Model;

// Copies the first bytes, at most `most` of them, and answers how many.
fn copy_out(bytes: &[u8], most: usize, buf: &mut [u8]) -> usize
    requires moves { 1 ≤ most }
    requires room { 0 < length buf.old }
    ensures count { result ≡ min (min (length bytes.now) (length buf.new)) most }
    ensures bytes { bytes.now ≡ take result buf.new ++ drop result bytes.now }
    ensures end { result ≡ 0 → bytes.now ≡ [] }
{
    let n = bytes.len().min(buf.len()).min(most);
    buf[..n].copy_from_slice(&bytes[..n]);
    n
}

/// A source over bytes in memory, which fails at the calls that a list names. Contracts see the
/// bytes left, how many a call moves at most, which of the next calls are to fail, and its faults.
#[derive(Drop)]
pub struct SourceMemory {
    bytes: Items<u8>,
    at: usize,
    most: usize,
    fails: Items<bool>,
    calls: usize,
    faults: u64,
}

impl Model for SourceMemory {
    ghost use Rattle.std.specs.Prelude.{◌≤◌, length, drop};
    ghost use Rattle.iso_io.specs.Streams.{Supply};

    ghost Value = { Supply };

    ghost view = { λ s. record { left = drop s.at s.bytes; most = s.most; fails = drop s.calls s.fails; faults = s.faults } };

    ghost invariant = { λ s. (s.at ≤ length s.bytes) × (1 ≤ s.most) × (s.calls ≤ length s.fails) };
}

impl SourceMemory {
    /// A source of these bytes; a call moves at most `most` of them. The k-th call, counted from 0,
    /// fails where `fails` has true at k; calls past that list do not fail.
    pub fn new(bytes: Items<u8>, most: usize, fails: Items<bool>) -> SourceMemory
        requires { 1 ≤ most }
        ensures left { result.left ≡ bytes }
        ensures most { result.most ≡ most }
        ensures fails { result.fails ≡ fails }
        ensures faults { result.faults ≡ 0 }
    {
        SourceMemory {
            bytes,
            at: 0,
            most,
            fails,
            calls: 0,
            faults: 0,
        }
    }
}

impl Source for SourceMemory {
    ghost left = { λ s. Some s.left };

    ghost faults = { λ s. s.faults };

    /// As the trait says; it fails exactly where the list says so, and else moves as many bytes as
    /// there are, as there is room for, and as a call may move.
    fn read(&mut self, buf: &mut [u8]) -> Result<usize, Failed>
        requires { 0 < length buf.old }
        ensures bound { ReadsAtMost result buf.new }
        ensures bytes { ReadConsumes (Some self.old.left) (Some self.new.left) result buf.new }
        ensures count { self.old.faults ≤ self.new.faults }
        ensures cause { OnErr result (HasRisen self.old.faults self.new.faults) }
        ensures fails { IsErr result ↔ IsTrue (next_fails self.old.fails) }
        ensures rest { self.new.fails ≡ drop 1 self.old.fails }
        ensures moved { IfOk result (λ n. n ≡ min (min (length self.old.left) (length buf.new)) self.old.most) }
        ensures most { self.new.most ≡ self.old.most }
        ensures unfailed { OnOk result (self.new.faults ≡ self.old.faults) }
    {
        if self.calls < self.fails.len() {
            let fail = self.fails.as_slice()[self.calls];
            self.calls += 1;
            if fail {
                self.faults = self.faults.saturating_add(1);
                return Err(Failed);
            }
        }
        let n = copy_out(&self.bytes.as_slice()[self.at..], self.most, buf);
        self.at += n;
        Ok(n)
    }
}

/// A source over bytes in memory, which never fails. Contracts see the bytes left, and how many a
/// call moves at most.
#[derive(Drop)]
pub struct SourcePlain {
    bytes: Items<u8>,
    at: usize,
    most: usize,
}

impl Model for SourcePlain {
    ghost use Rattle.std.specs.Prelude.{◌≤◌, length, drop};
    ghost use Rattle.iso_io.specs.Streams.{PlainSupply};

    ghost Value = { PlainSupply };

    ghost view = { λ s. record { left = drop s.at s.bytes; most = s.most } };

    ghost invariant = { λ s. (s.at ≤ length s.bytes) × (1 ≤ s.most) };
}

impl SourcePlain {
    /// A source of these bytes; a call moves at most `most` of them.
    pub fn new(bytes: Items<u8>, most: usize) -> SourcePlain
        requires { 1 ≤ most }
        ensures left { result.left ≡ bytes }
        ensures most { result.most ≡ most }
    {
        SourcePlain { bytes, at: 0, most }
    }
}

impl Source for SourcePlain {
    ghost left = { λ s. Some s.left };

    ghost faults = { λ _. 0 };

    fn read(&mut self, buf: &mut [u8]) -> Result<usize, Failed>
        requires { 0 < length buf.old }
        ensures bound { ReadsAtMost result buf.new }
        ensures bytes { ReadConsumes (Some self.old.left) (Some self.new.left) result buf.new }
        ensures never { IsOk result }
        ensures moved { IfOk result (λ n. n ≡ min (min (length self.old.left) (length buf.new)) self.old.most) }
        ensures most { self.new.most ≡ self.old.most }
    {
        let n = copy_out(&self.bytes.as_slice()[self.at..], self.most, buf);
        self.at += n;
        Ok(n)
    }
}

/// A sink in memory, which fails at the calls that a list names, and where it finds no memory.
/// Contracts see the bytes held, how many a call moves at most, which of the next calls are to
/// fail, and its faults.
#[derive(Drop)]
pub struct SinkMemory {
    bytes: Vec<u8>,
    most: usize,
    fails: Items<bool>,
    calls: usize,
    faults: u64,
}

impl Model for SinkMemory {
    ghost use Rattle.std.specs.Prelude.{◌≤◌, length, drop};
    ghost use Rattle.iso_io.specs.Streams.{Holding};

    ghost Value = { Holding };

    ghost view = { λ s. record { held = s.bytes.items; most = s.most; fails = drop s.calls s.fails; faults = s.faults } };

    ghost invariant = { λ s. (1 ≤ s.most) × (s.calls ≤ length s.fails) };
}

impl SinkMemory {
    /// A sink that holds nothing yet; a call moves at most `most` bytes. The k-th call, counted
    /// from 0, fails where `fails` has true at k; calls past that list fail only for want of memory.
    pub fn new(alloc: Global, most: usize, fails: Items<bool>) -> SinkMemory
        requires { 1 ≤ most }
        ensures held { result.held ≡ [] }
        ensures most { result.most ≡ most }
        ensures fails { result.fails ≡ fails }
        ensures faults { result.faults ≡ 0 }
    {
        SinkMemory {
            bytes: Vec::new(alloc),
            most,
            fails,
            calls: 0,
            faults: 0,
        }
    }

    /// The bytes that it holds.
    pub fn held(&self) -> &[u8]
        ensures { result.now ≡ self.now.held }
    {
        self.bytes.as_slice()
    }
}

impl Sink for SinkMemory {
    ghost held = { λ s. Some s.held };

    ghost faults = { λ s. s.faults };

    /// As the trait says; it fails where the list says so, and where it finds no memory, and else
    /// moves as many bytes as the piece has and as a call may move.
    fn write(&mut self, piece: &[u8]) -> Result<usize, Failed>
        requires { 0 < length piece.now }
        ensures bound { WritesAtMost result piece.now }
        ensures some { IfOk result (λ n. 0 < n) }
        ensures bytes { WriteAppends (Some self.old.held) (Some self.new.held) result piece.now }
        ensures count { self.old.faults ≤ self.new.faults }
        ensures cause { OnErr result (HasRisen self.old.faults self.new.faults) }
        ensures fails { IsTrue (next_fails self.old.fails) → IsErr result }
        ensures rest { self.new.fails ≡ drop 1 self.old.fails }
        ensures moved { IfOk result (λ n. n ≡ min (length piece.now) self.old.most) }
        ensures most { self.new.most ≡ self.old.most }
        ensures unfailed { OnOk result (self.new.faults ≡ self.old.faults) }
    {
        if self.calls < self.fails.len() {
            let planned = self.fails.as_slice()[self.calls];
            self.calls += 1;
            if planned {
                self.faults = self.faults.saturating_add(1);
                return Err(Failed);
            }
        }
        let n = piece.len().min(self.most);
        if self.bytes.extend_from_slice(&piece[..n]).is_err() {
            self.faults = self.faults.saturating_add(1);
            return Err(Failed);
        }
        Ok(n)
    }
}

/// A sink that takes every byte, keeps none, tells none and never fails.
#[derive(Clone, Copy)]
pub struct SinkPlain;

impl SinkPlain {
    /// The sink; it has no state.
    pub fn new() -> SinkPlain {
        SinkPlain
    }
}

impl Sink for SinkPlain {
    ghost faults = { λ _. 0 };

    fn write(&mut self, piece: &[u8]) -> Result<usize, Failed>
        requires { 0 < length piece.now }
        ensures { result ≡ Ok (length piece.now) }
    {
        Ok(piece.len())
    }
}
