ghost use Rattle.std.specs.Prelude.{◌≡◌, ◌⊎◌, ◌≤◌, ◌<◌, ℕ, IsSome, IfOk, IfErr, OnOk, OnErr, Some, slice_get, length};
ghost use Rattle.std.specs.List.{remove};
ghost use Rattle.pre_streams.specs.Fits.{Fits};
ghost use Rattle.pre_streams.specs.Rows.{IsRow};
ghost use Rattle.pre_streams.specs.Joined.{CanJoin, first_flow, with_stream};
ghost use Rattle.pre_bound.specs.Settled.{PriosBelow};
ghost use Rattle.pre_certify.specs.Causes.{Cause};
ghost use Rattle.pre_bound.specs.Listed.{HasGood};
ghost use Rattle.pre_certify.specs.Refusals.{NoneRefuses, IsAlone};
ghost use Rattle.pre_certify.specs.declared.unfit.Unfit.TheVariants.{Memory};
ghost use Rattle.pre_admit.specs.Certified.{IsCertified, IsPlan};
ghost use Rattle.pre_admit.specs.Reasons.{NoReason, IsReason, IsCause};
ghost use Rattle.pre_admit.specs.Local.{IsLocal};

use crate::Why;
use crate::reasons::{reason, why_of};
use pre_base::StreamId;
use pre_bound::Certificate;
use pre_certify::{Unfit, certify};
use pre_streams::{Row, Streams};
use pre_topo::Network;
use std::alloc::Global;

/// A row that isn't admitted, and why.
#[derive(Debug, Drop)]
pub struct NotAdmitted {
    pub row: Row,
    pub why: Why,
}

/// The streams and flows of a network, with the least certificate of the streams.
#[derive(Drop)]
pub struct Plan<'a> {
    pub net: &'a Network,
    pub streams: Streams,
    pub certificate: Certificate,
    alloc: Global,
}

/// Each priority is below 8, as its type says.
fn prios_below(rows: &[Row])
    ensures { PriosBelow rows.now }
{
    for row in rows {
        let _prio = row.prio.number();
    }
}

/// The certificate of the streams, or the stream at this place again, without which they are what they were.
fn certified(
    alloc: Global,
    net: &Network,
    streams: &mut Streams,
    place: usize,
) -> Result<Certificate, NotAdmitted>
    requires fits { Fits net.now streams.old }
    requires stream { (r : Row) × (slice_get streams.old.rows place ≡ Some r) × IsSome r.curve }
    ensures fits { Fits net.now streams.new }
    ensures rows { OnOk result (streams.new.rows ≡ streams.old.rows) }
    ensures certified { IfOk result (IsCertified net.now streams.new) }
    ensures none { OnOk result (NoneRefuses net.now streams.old.rows) }
    ensures row { IfErr result (λ e. slice_get streams.old.rows place ≡ Some e.row) }
    ensures left { OnErr result (streams.new.rows ≡ remove streams.old.rows place) }
    ensures cause { IfErr result (λ e. IsCause net.now streams.old.rows e.why) }
{
    match certify(alloc, net, streams) {
        Ok(certificate) => Ok(certificate),
        Err(unfit) => Err(NotAdmitted {
            row: streams.remove_stream(StreamId(place as u16)),
            why: why_of(unfit),
        }),
    }
}

/// The certificate with a stream more, or the row again.
fn joined(
    alloc: Global,
    net: &Network,
    streams: &mut Streams,
    row: Row,
) -> Result<Certificate, NotAdmitted>
    requires fits { Fits net.now streams.old }
    requires row { IsRow net.now row }
    requires can { CanJoin streams.old.rows row }
    ensures rows { OnOk result (streams.new.rows ≡ with_stream streams.old.rows row) }
    ensures certified { IfOk result (IsCertified net.now streams.new) }
    ensures none { OnOk result (NoneRefuses net.now (with_stream streams.old.rows row)) }
    ensures fits { Fits net.now streams.new }
    ensures stay { OnErr result (streams.new.rows ≡ streams.old.rows) }
    ensures back { IfErr result (λ e. e.row ≡ row) }
    ensures cause { IfErr result (λ e. IsCause net.now (with_stream streams.old.rows row) e.why) }
{
    let place = streams.first_flow();
    match streams.insert_stream(row) {
        Ok(()) => certified(alloc, net, streams, place),
        Err(row) => Err(NotAdmitted {
            row,
            why: Why::Memory,
        }),
    }
}

impl<'a> Plan<'a> {
    /// A plan of streams that fit the network, or why they have no certificate with ranks: what `certify` refuses them for.
    pub fn make(alloc: Global, net: &'a Network, streams: Streams) -> Result<Plan<'a>, Unfit>
        requires { Fits net.now streams }
        ensures net { IfOk result (λ plan. plan.net.now ≡ net.now) }
        ensures streams { IfOk result (λ plan. plan.streams.rows ≡ streams.rows) }
        ensures plan { IfOk result (λ plan. IsPlan net.now plan.streams plan.certificate) }
        ensures none { OnOk result (NoneRefuses net.now streams.rows) }
        ensures cause { IfErr result (Cause net.now streams.rows) }
        ensures complete { HasGood net.now streams → IfErr result (λ e. e ≡ Memory) }
        ensures alone { IfErr result (λ e. (e ≡ Memory) ⊎ IsAlone net.now streams e) }
    {
        match certify(alloc, net, &streams) {
            Ok(certificate) => Ok(Plan {
                net,
                streams,
                certificate,
                alloc,
            }),
            Err(unfit) => Err(unfit),
        }
    }

    /// The streams and flows that it holds.
    pub fn streams(&self) -> &Streams
        ensures { result.now ≡ self.now.streams }
    {
        &self.streams
    }

    /// The least certificate of the streams.
    pub fn certificate(&self) -> &Certificate
        ensures { result.now ≡ self.now.certificate }
    {
        &self.certificate
    }

    /// Takes in a stream behind the others, before the flows, and certifies them anew. What it can't change stays: ports that
    /// it doesn't touch keep block, work, rate, delay and size, and streams apart from those that it touches their bounds.
    /// Memory comes from the plan's own allocator.
    ///
    /// # Errors
    ///
    /// The row, and the first reason against it; the plan is then what it was.
    pub fn admit(&mut self, row: Row) -> Result<(), NotAdmitted>
        requires plan { IsPlan self.old.net.now self.old.streams self.old.certificate }
        requires row { IsRow self.old.net.now row }
        requires stream { IsSome row.curve }
        ensures net { self.new.net.now ≡ self.old.net.now }
        ensures plan { IsPlan self.new.net.now self.new.streams self.new.certificate }
        ensures rows { OnOk result (self.new.streams.rows ≡ with_stream self.old.streams.rows row) }
        ensures local { OnOk result (IsLocal self.old.streams.rows row self.old.certificate self.new.certificate) }
        ensures none { OnOk result (NoReason self.old.streams.rows row × NoneRefuses self.old.net.now (with_stream self.old.streams.rows row)) }
        ensures back { IfErr result (λ e. e.row ≡ row) }
        ensures stay { OnErr result ((self.new.streams.rows ≡ self.old.streams.rows) × (self.new.certificate ≡ self.old.certificate)) }
        ensures why { IfErr result (λ e. IsReason self.old.net.now self.old.streams.rows row e.why) }
    {
        if let Some(why) = reason(&self.streams, &row) {
            return Err(NotAdmitted { row, why });
        }
        prios_below(self.streams.rows.as_slice());
        self.certificate = joined(self.alloc, self.net, &mut self.streams, row)?;
        Ok(())
    }
}
