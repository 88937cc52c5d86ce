ghost use Rattle.std.specs.Prelude.{◌≡◌, ℕ, ◌<◌, ◌≤◌, length, take, OnOk, OnErr, IfOk, Err};
ghost use Rattle.std.specs.Io.KnownBytes.{Appends, IsAtEnd};
ghost use Rattle.iso_io.specs.Moves.{AppendsPart, HasRisen};
ghost use Rattle.iso_io.specs.Script.{ReadsScript};

use crate::traits::{Sink, Source};
use iso_types::Items;
use std::alloc::Global;

// The most bytes of a script.
const MOST: usize = 1_048_576;

/// Why no script was read.
#[derive(Clone, Copy, PartialEq, Eq, Debug)]
pub enum ReadFault {
    /// A read failed; the source's count of faults has risen in this call.
    ReadFault,
    /// 1,048,577 bytes were read, one more than a script may have.
    TooLong,
    /// Want of memory; the source may have been read.
    Memory,
}

/// A write failed; the sink's count of faults has risen in this call.
#[derive(Clone, Copy, PartialEq, Eq, Debug)]
pub struct WriteFault;

/// All bytes that the source has left, at most 1,048,576: `TooLong` exactly where one more was
/// read, and no byte after that one is taken. It takes one pass over the bytes.
pub fn read_script<S: Source>(alloc: Global, source: &mut S) -> Result<Items<u8>, ReadFault>
    ensures bytes { ReadsScript (S.left source.old) (S.left source.new) result }
    ensures end { OnOk result (IsAtEnd (S.left source.new)) }
    ensures fault { result ≡ Err ReadFault.ReadFault → HasRisen (S.faults source.old) (S.faults source.new) }
    ensures count { S.faults source.old ≤ S.faults source.new }
{
    let mut all = Vec::new(alloc);
    let mut buf = [0; 4096];
    'pieces: loop {
        let left = MOST - all.len();
        let room = buf.len().min(left + 1);
        match source.read(&mut buf[..room]) {
            Err(_) => return Err(ReadFault::ReadFault),
            Ok(0) => return Ok(Items::from_vec(all)),
            Ok(n) => {
                if n > left {
                    return Err(ReadFault::TooLong);
                }
                if all.extend_from_slice(&buf[..n]).is_err() {
                    return Err(ReadFault::Memory);
                }
            }
        }
    }
}

/// Writes all the bytes; after `WriteFault` the sink holds a prefix of them more. It takes no memory
/// of its own, and one pass over the bytes.
pub fn write_whole<K: Sink>(sink: &mut K, bytes: &[u8]) -> Result<(), WriteFault>
    ensures ok { OnOk result (Appends (K.held sink.old) (K.held sink.new) bytes.now) }
    ensures part { AppendsPart (K.held sink.old) (K.held sink.new) bytes.now }
    ensures fault { OnErr result (HasRisen (K.faults sink.old) (K.faults sink.new)) }
    ensures count { K.faults sink.old ≤ K.faults sink.new }
{
    let mut at = 0;
    'pieces: while at < bytes.len() {
        match sink.write(&bytes[at..]) {
            Ok(n) => at += n,
            Err(_) => return Err(WriteFault),
        }
    }
    Ok(())
}
