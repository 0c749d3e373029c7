ghost use Rattle.std.specs.Prelude.{◌≡◌, ◌+◌, ◌^◌, ◌<◌, ◌≤◌, length, OnOk};
ghost use Rattle.pre_check.specs.Due.{due_lines};
ghost use Rattle.pre_check.specs.Seen.{seen, nothing_seen, with_said};
ghost use Rattle.pre_check.specs.Reading.{AreSmall, ReadsAs, until_end};

use crate::due::Due;
use crate::reading::CertificateFault;
use crate::saying::{END, Said};
use pre_base::{Items, StreamId};
use pre_bound::{ArcRow, Certificate, HopRow, PortRow};
use std::alloc::{AllocError, Global};

/// What the lines of a certificate have said so far.
#[derive(Debug, Drop)]
pub struct Draft {
    pub version: u64,
    /// How many of the lines due were read.
    pub place: usize,
    pub arcs: Items<ArcRow>,
    pub ports: Items<PortRow>,
    pub hops: Items<HopRow>,
    pub bounds: Items<(StreamId, u64)>,
}

impl Draft {
    pub fn new(alloc: Global) -> Draft
        ensures { seen result ≡ nothing_seen }
    {
        Draft {
            version: 2,
            place: 0,
            arcs: Items::new(alloc),
            ports: Items::new(alloc),
            hops: Items::new(alloc),
            bounds: Items::new(alloc),
        }
    }

    /// Takes up what one more line says.
    pub fn add(&mut self, said: Said) -> Result<(), AllocError>
        requires { self.old.place + 1 < 2 ^ 64 }
        ensures { OnOk result (seen self.new ≡ with_said (seen self.old) said) }
    {
        match said {
            Said::First(version) => self.version = version,
            Said::Arc(row) => self.arcs.push(row)?,
            Said::Port(row) => self.ports.push(row)?,
            Said::Hop(row) => self.hops.push(row)?,
            Said::Bound(stream, bound) => self.bounds.push((stream, bound))?,
            Said::End => {}
        }
        self.place += 1;
        Ok(())
    }

    /// The certificate, where all lines that are due were read.
    pub fn ended(self, due: &[Due], count: u64) -> Result<Certificate, CertificateFault>
        requires count { count + 1 < 2 ^ 64 }
        requires small { AreSmall (seen self) }
        ensures { ReadsAs result (until_end due.now count (seen self)) }
    {
        let Draft {
            version: _,
            place,
            arcs,
            ports,
            hops,
            bounds,
        } = self;
        if place != due.len() {
            return Err(CertificateFault::Fault {
                line: count + 1,
                rule: END,
            });
        }
        Ok(Certificate {
            arcs,
            ports,
            hops,
            bounds,
        })
    }
}
