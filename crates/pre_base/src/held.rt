ghost use Rattle.std.specs.Prelude.{◌≡◌, ◌≤◌, ◌↔◌, ◌++◌, [], IsTrue, OnOk, OnErr, drop, length, take, min, ◌-◌};
ghost use Rattle.pre_base.specs.Waiting.{WroteFront};

use crate::Failed;
use std::marker::Model;

/// How many octets are held at most.
const ROOM: usize = 65536;

/// Octets that wait to be written.
#[derive(Drop)]
pub(crate) struct Held {
    octets: [u8; ROOM],
    // Those before this place are written.
    written: usize,
    end: usize,
}

impl Model for Held {
    ghost use Rattle.std.specs.Prelude.{◌≤◌, ◌-◌, drop, take};
    ghost use Rattle.pre_base.specs.Waiting.{Waiting};

    ghost Value = { Waiting };

    ghost view = { λ h. record { octets = drop h.written (take h.end h.octets); room = 65536 - h.end } };

    ghost invariant = { λ h. (h.written ≤ h.end) × (h.end ≤ 65536) };
}

impl Held {
    /// None yet.
    pub(crate) fn new() -> Held
        ensures { (result.octets ≡ []) × (result.room ≡ 65536) }
    {
        Held {
            octets: [0; ROOM],
            written: 0,
            end: 0,
        }
    }

    /// Whether there is no room.
    pub(crate) fn is_full(&self) -> bool
        ensures { IsTrue result ↔ (self.now.room ≡ 0) }
    {
        self.end == ROOM
    }

    /// Puts a front of the piece behind the others, as much as there is room for, and answers its length.
    pub(crate) fn hold(&mut self, piece: &[u8]) -> usize
        ensures count { result ≡ min (length piece.now) self.old.room }
        ensures octets { self.new.octets ≡ self.old.octets ++ take result piece.now }
        ensures room { self.new.room ≡ self.old.room - result }
    {
        let count = piece.len().min(ROOM - self.end);
        self.octets[self.end..self.end + count].copy_from_slice(&piece[..count]);
        self.end += count;
        count
    }

    /// Writes them all, or fails after a front of them and keeps the others.
    pub(crate) fn write_out<R: Print>(&mut self, rt: &R) -> Result<(), Failed>
        ensures ok { OnOk result ((self.new.octets ≡ []) × (self.new.room ≡ 65536)) }
        ensures err { OnErr result (WroteFront self.old self.new) }
    {
        write_rest(rt, &self.octets[..self.end], &mut self.written)?;
        self.written = 0;
        self.end = 0;
        Ok(())
    }
}

/// Writes the octets from `written` on, and moves it behind those that were written: at Ok behind the last one.
fn write_rest<R: Print>(rt: &R, octets: &[u8], written: &mut usize) -> Result<(), Failed>
    requires { written.old ≤ length octets.now }
    ensures onward { written.old ≤ written.new }
    ensures within { written.new ≤ length octets.now }
    ensures all { OnOk result (written.new ≡ length octets.now) }
{
    while *written < octets.len() {
        match rt.write_some(&octets[*written..]) {
            Ok(count) if count > 0 => *written += count,
            _ => return Err(Failed),
        }
    }
    Ok(())
}
