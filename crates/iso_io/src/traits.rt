ghost use Rattle.std.specs.Prelude.{◌≡◌, ℕ, ◌<◌, ◌≤◌, List, length, None, OnErr, IfOk, Option};
ghost use Rattle.std.specs.Io.{ReadsAtMost, WritesAtMost};
ghost use Rattle.std.specs.Io.KnownBytes.{ReadConsumes, WriteAppends};
ghost use Rattle.iso_io.specs.Moves.{HasRisen};

/// A read or a write failed; the stream's count of faults has risen in that call.
#[derive(Clone, Copy, PartialEq, Eq, Debug)]
pub struct Failed;

/// Where bytes come from. What a real stream has left is not told, and then no clause speaks of it.
pub trait Source {
    // the bytes that are left, where they are told
    ghost left: { Self → Option (List ℕ) } = { λ _. None };

    // how often it has failed, a count that never falls
    ghost faults: { Self → ℕ };

    /// Takes the first bytes that are left, at most as many as `buf` has, and answers how many:
    /// 0 only at the end. `Failed` comes only where the count rose, and has taken nothing.
    fn read(&mut self, buf: &mut [u8]) -> Result<usize, Failed>
        requires { 0 < length buf.old }
        ensures bound { ReadsAtMost result buf.new }
        ensures bytes { ReadConsumes (left self.old) (left self.new) result buf.new }
        ensures count { faults self.old ≤ faults self.new }
        ensures cause { OnErr result (HasRisen (faults self.old) (faults self.new)) };
}

/// Where bytes go. What a real stream holds is not told, and then no clause speaks of it.
pub trait Sink {
    // the bytes that it holds, where they are told
    ghost held: { Self → Option (List ℕ) } = { λ _. None };

    // how often it has failed, a count that never falls
    ghost faults: { Self → ℕ };

    /// Takes the first bytes of the piece, at least one, and answers how many. `Failed` comes only
    /// where the count rose, and has taken nothing.
    fn write(&mut self, piece: &[u8]) -> Result<usize, Failed>
        requires { 0 < length piece.now }
        ensures bound { WritesAtMost result piece.now }
        ensures some { IfOk result (λ n. 0 < n) }
        ensures bytes { WriteAppends (held self.old) (held self.new) result piece.now }
        ensures count { faults self.old ≤ faults self.new }
        ensures cause { OnErr result (HasRisen (faults self.old) (faults self.new)) };
}
