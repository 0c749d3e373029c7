ghost use Rattle.std.specs.Prelude.{◌≡◌, ◌≤◌, ◌+◌, ℕ};
ghost use Rattle.pre_picture.specs.Scales.{covers, place};

/// A part of a line of numbers, and where it lies in a picture: `from` at `left`, and `to` so much to the right of it. What is
/// outside it lies at its ends.
#[derive(Clone, Copy, Debug)]
pub struct Scale {
    pub from: u64,
    pub to: u64,
    pub left: u32,
    pub width: u32,
}

impl Scale {
    /// Whether a number is on it.
    pub fn covers(&self, number: u64) -> bool
        ensures { result ≡ covers self.now number }
    {
        self.from <= number && number <= self.to
    }

    /// The place of a number.
    pub fn place(&self, number: u64) -> u64
        ensures value { result ≡ place self.now number }
        ensures within { result ≤ self.now.left + self.now.width }
    {
        let span = u128::from(self.to.saturating_sub(self.from).max(1));
        let behind = u128::from(number.min(self.to).saturating_sub(self.from));
        let part = behind * u128::from(self.width) / span;
        u64::from(self.left) + part as u64
    }
}
