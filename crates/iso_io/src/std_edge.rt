ghost use Rattle.std.specs.Prelude.{◌≡◌, ◌<◌, ◌≤◌, length, None, OnErr, OnOk, IfOk};
ghost use Rattle.std.specs.Io.{ReadsAtMost, WritesAtMost};
ghost use Rattle.std.specs.Io.KnownBytes.{ReadConsumes, WriteAppends};
ghost use Rattle.iso_io.specs.Moves.{HasRisen};

use crate::traits::{Failed, Sink, Source};
use std::io::{Read, Write};
use std::marker::Model;

/// A source over a reader of std. It tells no bytes: what the reader holds is not proved.
/// Contracts see how often it has failed.
#[derive(Drop)]
pub struct SourceStd<T> {
    reader: T,
    faults: u64,
}

impl<T> Model for SourceStd<T> {
    ghost use Rattle.std.specs.Prelude.{ℕ};

    ghost Value = { ℕ };

    ghost view = { λ s. s.faults };
}

impl<T> SourceStd<T> {
    /// A source over this reader, which has not failed yet.
    pub fn new(reader: T) -> SourceStd<T>
        ensures { result ≡ 0 }
    {
        SourceStd { reader, faults: 0 }
    }
}

impl<T: Read> Source for SourceStd<T> {
    ghost faults = { λ s. s };

    /// One read of the reader's; each of its errors counts.
    fn read(&mut self, buf: &mut [u8]) -> Result<usize, Failed>
        requires { 0 < length buf.old }
        ensures bound { ReadsAtMost result buf.new }
        ensures count { self.old ≤ self.new }
        ensures cause { OnErr result (HasRisen self.old self.new) }
        ensures unfailed { OnOk result (self.new ≡ self.old) }
    {
        match self.reader.read(buf) {
            Ok(n) => Ok(n),
            Err(_) => {
                self.faults = self.faults.saturating_add(1);
                Err(Failed)
            }
        }
    }
}

/// A sink over a writer of std. It tells no bytes: what the writer took is not proved. Contracts
/// see how often it has failed.
#[derive(Drop)]
pub struct SinkStd<T> {
    writer: T,
    faults: u64,
}

impl<T> Model for SinkStd<T> {
    ghost use Rattle.std.specs.Prelude.{ℕ};

    ghost Value = { ℕ };

    ghost view = { λ s. s.faults };
}

impl<T> SinkStd<T> {
    /// A sink over this writer, which has not failed yet.
    pub fn new(writer: T) -> SinkStd<T>
        ensures { result ≡ 0 }
    {
        SinkStd { writer, faults: 0 }
    }
}

impl<T: Write> Sink for SinkStd<T> {
    ghost faults = { λ s. s };

    /// One write of the writer's; each of its errors counts, and each time that it takes nothing.
    fn write(&mut self, piece: &[u8]) -> Result<usize, Failed>
        requires { 0 < length piece.now }
        ensures bound { WritesAtMost result piece.now }
        ensures some { IfOk result (λ n. 0 < n) }
        ensures count { self.old ≤ self.new }
        ensures cause { OnErr result (HasRisen self.old self.new) }
        ensures unfailed { OnOk result (self.new ≡ self.old) }
    {
        match self.writer.write(piece) {
            Ok(n) if n > 0 => Ok(n),
            _ => {
                self.faults = self.faults.saturating_add(1);
                Err(Failed)
            }
        }
    }
}

#[cfg(test)]
mod tests {
    use super::*;
    use crate::{ReadFault, WriteFault, read_script, write_whole};
    use std::io;
    use std::test::Fail;

    /// A reader and writer that moves so many bytes, at most two a call, and then fails.
    #[derive(Drop)]
    struct Failing(usize);

    impl Read for Failing {
        fn read(&mut self, buf: &mut [u8]) -> io::Result<usize> {
            let n = self.0.min(buf.len()).min(2);
            if n == 0 {
                return Err(io::ErrorKind::Other.into());
            }
            self.0 -= n;
            Ok(n)
        }
    }

    impl Write for Failing {
        fn write(&mut self, buf: &[u8]) -> io::Result<usize> {
            let n = self.0.min(buf.len()).min(2);
            if n == 0 {
                return Err(io::ErrorKind::Other.into());
            }
            self.0 -= n;
            Ok(n)
        }

        fn flush(&mut self) -> io::Result<()> {
            Ok(())
        }
    }

    /// A writer that takes nothing.
    #[derive(Drop)]
    struct Full;

    impl Write for Full {
        fn write(&mut self, _buf: &[u8]) -> io::Result<usize> {
            Ok(0)
        }

        fn flush(&mut self) -> io::Result<()> {
            Ok(())
        }
    }

    // Whether reading a script answers a fault, and the source has then failed so often.
    fn fails(rt: &impl AllocGlobal, source: &mut SourceStd<Failing>, faults: u64) -> bool {
        let read = read_script(rt.alloc(), source);
        matches!(&read, Err(ReadFault::ReadFault)) && source.faults == faults
    }

    // What writing answers, and how often the sink has then failed.
    fn writes<T: Write>(sink: &mut SinkStd<T>) -> (Result<(), WriteFault>, u64) {
        let answer = write_whole(sink, b"END\n");
        (answer, sink.faults)
    }

    #[test]
    fn failing_streams_of_std_count(rt: HostRuntime) {
        let mut source = SourceStd::new(Failing(5));
        assert!(rt; fails(&rt, &mut source, 1));
        assert!(rt; fails(&rt, &mut source, 2));
        let mut sink = SinkStd::new(Failing(5));
        assert_eq!(rt; writes(&mut sink), (Ok(()), 0));
        assert_eq!(rt; writes(&mut sink), (Err(WriteFault), 1));
        let mut full = SinkStd::new(Full);
        assert_eq!(rt; writes(&mut full), (Err(WriteFault), 1));
    }

    #[test]
    fn streams_of_std_that_serve(rt: HostRuntime) -> Result<(), Fail> {
        let mut source = SourceStd::new(b"END\n".as_slice());
        let read = read_script(rt.alloc(), &mut source).map_err(|_| "a fault")?;
        assert_eq!(rt; read.as_slice(), b"END\n".as_slice());
        let mut sink = SinkStd::new(Vec::new(rt.alloc()));
        assert_eq!(rt; writes(&mut sink), (Ok(()), 0));
        assert_eq!(rt; sink.writer.as_slice(), b"END\n".as_slice());
        Ok(())
    }
}
