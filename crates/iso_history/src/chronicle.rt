//! What a value with a history shows of it.

ghost use Rattle.std.specs.Prelude.{◌≡◌, length};

/// A value that has a head and a history, as a list of entries; this project's own.
pub trait Chronicle {
    ghost use Rattle.std.specs.Prelude.{List, length};
    ghost use Rattle.iso_history.specs.declared.entry.Entry.{Entry};
    ghost use Rattle.iso_types.specs.declared.head.Head.{Head};

    ghost head: { Self → Head };

    ghost history: { Self → List Entry };

    /// The number of entries of the history.
    fn entries(&self) -> usize
        ensures { result ≡ length (history self.now) };
}
