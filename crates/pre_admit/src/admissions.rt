ghost use Rattle.std.specs.Prelude.{◌≡◌, ◌↔◌, IfOk, IfErr, IsSome, IsTrue, All};
ghost use Rattle.pre_streams.specs.Rows.{IsRow};
ghost use Rattle.pre_admit.specs.Certified.{IsPlan};
ghost use Rattle.pre_admit.specs.Admissions.{Admits, AdmitsOne, admitted, with_streams};
ghost use Rattle.pre_admit.specs.declared.reasons.Why.TheVariants as reason;

use crate::{NotAdmitted, Plan, Why};
use pre_base::{Items, StreamId};
use pre_streams::Row;
use std::alloc::{AllocError, Global};

/// What came of a row.
#[derive(Debug, Drop)]
pub enum Outcome {
    /// It is the stream of this number.
    Admitted(StreamId),
    /// It isn't admitted, for this reason, which isn't want of memory.
    Refused(NotAdmitted),
}

fn is_memory(why: &Why) -> bool
    ensures { IsTrue result ↔ (why.now ≡ reason.Memory) }
{
    match why {
        Why::Memory => true,
        Why::Name => false,
        Why::Route { hop: _ } => false,
        Why::Count => false,
        Why::Unfit(_) => false,
    }
}

fn outcome_of(plan: &mut Plan<'_>, row: Row) -> Result<Outcome, AllocError>
    requires plan { IsPlan plan.old.net.now plan.old.streams plan.old.certificate }
    requires row { IsRow plan.old.net.now row }
    requires stream { IsSome row.curve }
    ensures net { plan.new.net.now ≡ plan.old.net.now }
    ensures plan { IsPlan plan.new.net.now plan.new.streams plan.new.certificate }
    ensures outcome { IfOk result (λ o. AdmitsOne plan.old.net.now plan.old.streams.rows row o plan.new.streams.rows) }
{
    let place = plan.streams.first_flow();
    match plan.admit(row) {
        Ok(()) => Ok(Outcome::Admitted(StreamId(place as u16))),
        Err(refused) => {
            if is_memory(&refused.why) {
                return Err(AllocError);
            }
            Ok(Outcome::Refused(refused))
        }
    }
}

fn outcomes_of(
    alloc: Global,
    plan: &mut Plan<'_>,
    rows: Items<Row>,
) -> Result<Items<Outcome>, AllocError>
    requires plan { IsPlan plan.old.net.now plan.old.streams plan.old.certificate }
    requires rows { All (IsRow plan.old.net.now) rows }
    requires streams { All (λ r. IsSome r.curve) rows }
    ensures net { plan.new.net.now ≡ plan.old.net.now }
    ensures plan { IsPlan plan.new.net.now plan.new.streams plan.new.certificate }
    ensures outcomes { IfOk result (λ outcomes. Admits plan.old.net.now plan.old.streams.rows rows outcomes plan.new.streams.rows) }
{
    let mut outcomes = Items::new(alloc);
    for row in rows.into_vec() {
        outcomes.push(outcome_of(plan, row)?)?;
    }
    Ok(outcomes)
}

/// Admits streams one after the other, and answers what came of each. The plan then holds the rows that it held, with the
/// admitted ones in order behind the streams, before the flows. Where there isn't enough memory it holds those that were
/// admitted until then.
pub fn admit_all(
    alloc: Global,
    plan: &mut Plan<'_>,
    rows: Items<Row>,
) -> Result<Items<Outcome>, AllocError>
    requires plan { IsPlan plan.old.net.now plan.old.streams plan.old.certificate }
    requires rows { All (IsRow plan.old.net.now) rows }
    requires streams { All (λ r. IsSome r.curve) rows }
    ensures net { plan.new.net.now ≡ plan.old.net.now }
    ensures plan { IsPlan plan.new.net.now plan.new.streams plan.new.certificate }
    ensures outcomes { IfOk result (λ outcomes. Admits plan.old.net.now plan.old.streams.rows rows outcomes plan.new.streams.rows) }
    ensures held { IfOk result (λ outcomes. plan.new.streams.rows ≡ with_streams plan.old.streams.rows (admitted rows outcomes)) }
{
    outcomes_of(alloc, plan, rows)
}
