// A source and a sink as the layers above see them: bytes where they are told, and a count of faults.
ghost use Rattle.std.specs.Prelude.{◌≡◌, ◌≤◌, ◌<◌, [], ℕ, List, length, take, IfOk, OnErr, Option};
ghost use Rattle.std.specs.Io.KnownBytes.{Consumes, IsAtEnd, Keeps};
ghost use Rattle.ats_io.specs.Bytes.{Adds};
ghost use Rattle.ats_io.specs.Faults.{Rose};

/// The device has failed, and has counted the fault.
#[derive(Clone, Copy)]
pub struct Failed;

/// Gives bytes, a piece at a time.
pub trait Source {
    /// The bytes that are left, where the source tells them.
    ghost left: { Self → Option (List ℕ) };

    /// How often the source has failed.
    ghost faults: { Self → ℕ };

    /// Puts the next bytes at the front of `buf`, and says how many they are. `Ok(0)` for a `buf` that
    /// isn't empty is the end of the input. A read that fails takes no byte.
    fn read(&mut self, buf: &mut [u8]) -> Result<usize, Failed>
        ensures within { IfOk result (λ count. count ≤ length buf.new) }
        ensures given { IfOk result (λ count. Consumes (left self.old) (left self.new) (take count buf.new)) }
        ensures end { IfOk result (λ count. count ≡ 0 → 0 < length buf.new → IsAtEnd (left self.new)) }

        ensures none_taken { OnErr result (Keeps (left self.old) (left self.new)) }
        ensures cause { OnErr result (Rose (faults self.old) (faults self.new)) }

        ensures never_falls { faults self.old ≤ faults self.new };
}

/// Takes bytes, a piece at a time.
pub trait Sink {
    /// The bytes that were taken, where the sink tells them.
    ghost taken: { Self → Option (List ℕ) };

    /// How often the sink has failed.
    ghost faults: { Self → ℕ };

    /// Takes the first bytes of `piece`, and says how many they are: at least one, unless it is empty.
    /// A write that fails takes no byte.
    fn write(&mut self, piece: &[u8]) -> Result<usize, Failed>
        ensures within { IfOk result (λ count. count ≤ length piece.now) }
        ensures some { 0 < length piece.now → IfOk result (λ count. 0 < count) }
        ensures added { IfOk result (λ count. Adds (taken self.old) (taken self.new) (take count piece.now)) }

        ensures none_taken { OnErr result (Adds (taken self.old) (taken self.new) []) }
        ensures cause { OnErr result (Rose (faults self.old) (faults self.new)) }

        ensures never_falls { faults self.old ≤ faults self.new };
}
