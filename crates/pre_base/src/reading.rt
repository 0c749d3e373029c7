ghost use Rattle.std.specs.Prelude.{◌≡◌, ◌<◌, ◌≤◌, ◌⊎◌, IfOk, OnOk, vec_len};
ghost use Rattle.pre_base.specs.Faults.{Rose};
ghost use Rattle.pre_base.specs.Told.{WhereTold};
ghost use Rattle.pre_base.specs.Shelves.{IsMissing};
ghost use Rattle.pre_base.specs.Reading.{IsWhole, HasAtLeast, SameFiles};
ghost use Rattle.pre_base.specs.declared.reading.ReadError.TheVariants.{Fault, Memory};

use crate::{Failed, Shelf};
use std::alloc::{AllocError, Global};

/// The greatest length of a file, in octets.
pub const MAX_FILE: u64 = 16_777_216;

const CHUNK: usize = 65536;

/// Why a file wasn't read.
#[derive(Clone, Copy, Debug, PartialEq, Eq)]
pub enum ReadError {
    /// The shelf failed.
    Fault,
    /// More than 16,777,216 octets were handed out.
    Length,
    /// Want of memory.
    Memory,
}

impl From<Failed> for ReadError {
    ghost from_gives = { λ _ e. e ≡ Fault };

    fn from(_: Failed) -> ReadError {
        ReadError::Fault
    }
}

impl From<AllocError> for ReadError {
    ghost from_gives = { λ _ e. e ≡ Memory };

    fn from(_: AllocError) -> ReadError {
        ReadError::Memory
    }
}

/// Selects a file and reads the whole of it.
pub fn read_whole<H: Shelf>(alloc: Global, shelf: &mut H, name: &str) -> Result<Vec<u8>, ReadError>
    ensures whole { IfOk result (λ octets. WhereTold (H.tells shelf.old) (H.tells shelf.new) (IsWhole name.now octets.items)) }
    ensures counted { IfOk result (λ octets. H.handed shelf.new ≡ vec_len octets) }
    ensures within { OnOk result (H.handed shelf.new ≤ 16777216) }
    ensures length { result ≡ Err ReadError.Length → 16777216 < H.handed shelf.new }
    ensures long { result ≡ Err ReadError.Length → WhereTold (H.tells shelf.old) (H.tells shelf.new) (HasAtLeast name.now (H.handed shelf.new)) }
    ensures fault { result ≡ Err ReadError.Fault → IsMissing (H.tells shelf.old) name.now ⊎ Rose (H.faults shelf.old) (H.faults shelf.new) }
    ensures fault_within { result ≡ Err ReadError.Fault → H.handed shelf.new ≤ 16777216 }
    ensures files { WhereTold (H.tells shelf.old) (H.tells shelf.new) SameFiles }
    ensures later { H.faults shelf.old ≤ H.faults shelf.new }
{
    shelf.select(name)?;
    let mut octets = Vec::new(alloc);
    let mut chunk = [0u8; CHUNK];
    loop {
        let count = shelf.read(&mut chunk)?;
        if count == 0 {
            return Ok(octets);
        }
        octets.extend_from_slice(&chunk[..count])?;
        if shelf.handed() > MAX_FILE {
            return Err(ReadError::Length);
        }
    }
}
