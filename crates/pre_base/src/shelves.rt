ghost use Rattle.std.specs.Prelude.{◌≡◌, ◌≤◌, ◌⊎◌, ℕ, Option, IsErr, OnErr};
ghost use Rattle.std.specs.Io.{ReadsAtMost};
ghost use Rattle.pre_base.specs.Faults.{Rose, HasCause};
ghost use Rattle.pre_base.specs.Told.{WhereTold};
ghost use Rattle.pre_base.specs.Shelves.{Told, IsMissing, Selects, HandsOut, CountsHanded};

/// A call of something outside failed.
#[derive(Clone, Copy, Debug, PartialEq, Eq)]
pub struct Failed;

/// Named files, one of which is read from its front.
pub trait Shelf {
    /// The files and what is left of the selected one, where the shelf tells them.
    ghost tells: { Self → Option Told };

    /// How many octets were handed out since the last selection.
    ghost handed: { Self → ℕ };

    /// How often the shelf has failed.
    ghost faults: { Self → ℕ };

    /// Selects a file by its name. At `Ok` the whole of it is what is left to read, and else nothing is.
    fn select(&mut self, name: &str) -> Result<(), Failed>
        ensures files { WhereTold (tells self.old) (tells self.new) (Selects result name.now) }
        ensures missing { IsMissing (tells self.old) name.now → IsErr result × (faults self.new ≡ faults self.old) }
        ensures restarts { handed self.new ≡ 0 }
        ensures later { faults self.old ≤ faults self.new }
        ensures failed { OnErr result (IsMissing (tells self.old) name.now ⊎ Rose (faults self.old) (faults self.new)) };

    /// Hands out the next octets of the selected file: 0 into room only at its end. A failed call hands out nothing.
    fn read(&mut self, into: &mut [u8]) -> Result<usize, Failed>
        ensures bound { ReadsAtMost result into.new }
        ensures octets { WhereTold (tells self.old) (tells self.new) (HandsOut result into.new) }
        ensures counts { CountsHanded result (handed self.old) (handed self.new) }
        ensures cause { HasCause (faults self.old) (faults self.new) result };

    /// How many octets were handed out since the last selection.
    fn handed(&self) -> u64
        ensures { result ≡ handed self.now };

    /// How often the shelf has failed.
    fn faults(&self) -> u64
        ensures { result ≡ faults self.now };
}
