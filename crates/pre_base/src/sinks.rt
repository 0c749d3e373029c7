ghost use Rattle.std.specs.Prelude.{◌≡◌, ℕ, Option};
ghost use Rattle.pre_base.specs.Faults.{HasCause};
ghost use Rattle.pre_base.specs.Told.{WhereTold};
ghost use Rattle.pre_base.specs.Sinks.{Taken, Takes, TakesSome, TakesAll, Flushes};

use crate::Failed;

/// Something that takes octets.
pub trait Sink {
    /// The octets taken and whether all are flushed, where the sink tells them.
    ghost tells: { Self → Option Taken };

    /// How often the sink has failed.
    ghost faults: { Self → ℕ };

    /// Takes a front of the piece and answers its length. A failed call takes nothing.
    fn write(&mut self, piece: &[u8]) -> Result<usize, Failed>
        ensures some { TakesSome result piece.now }
        ensures octets { WhereTold (tells self.old) (tells self.new) (Takes result piece.now) }
        ensures cause { HasCause (faults self.old) (faults self.new) result };

    /// Passes on all that was taken. It takes nothing.
    fn flush(&mut self) -> Result<(), Failed>
        ensures octets { WhereTold (tells self.old) (tells self.new) (Flushes result) }
        ensures cause { HasCause (faults self.old) (faults self.new) result };

    /// How often the sink has failed.
    fn faults(&self) -> u64
        ensures { result ≡ faults self.now };
}

/// Writes the whole piece, or fails after a front of it.
pub fn write_all<S: Sink>(sink: &mut S, piece: &[u8]) -> Result<(), Failed>
    ensures octets { WhereTold (S.tells sink.old) (S.tells sink.new) (TakesAll result piece.now) }
    ensures cause { HasCause (S.faults sink.old) (S.faults sink.new) result }
{
    let mut rest = piece;
    while !rest.is_empty() {
        let taken = sink.write(rest)?;
        rest = &rest[taken..];
    }
    Ok(())
}
