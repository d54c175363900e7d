ghost use Rattle.std.specs.Prelude.{◌≡◌, ◌<◌, ℕ, List, [], Option, length, IfOk, IfSome};
ghost use Rattle.std.specs.Io.{ReadsAtMost};
ghost use Rattle.std.specs.Io.KnownBytes.{ReadConsumes};
ghost use Rattle.outside.specs.Causes.{HasCause};

/// The outside failed.
#[derive(Clone, Copy, Debug)]
pub struct Failed;

/// Where bytes come from. A source may tell the bytes that are left, and counts its faults.
pub trait Source {
    ghost left: { Self → Option (List ℕ) };

    ghost faults: { Self → ℕ };

    /// How often the source has failed; it stands still at the end of its type.
    fn faults(&self) -> u64
        ensures { result ≡ faults self.now };

    /// Moves the next bytes into the front of `buf` and answers how many. None for a `buf` with room
    /// is the end of the input.
    fn read(&mut self, buf: &mut [u8]) -> Result<usize, Failed>
        ensures bound { ReadsAtMost result buf.new }
        ensures bytes { ReadConsumes (left self.old) (left self.new) result buf.new }
        ensures end { IfOk result (λ n. n ≡ 0 → 0 < length buf.new → IfSome (left self.old) (λ bytes. bytes ≡ [])) }
        ensures cause { HasCause (faults self.old) (faults self.new) result };
}
