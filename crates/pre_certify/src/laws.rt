ghost use Rattle.pre_certify.specs.Refusals.{GoodRefusesNone, OneRefuses, RanksLeaveNoCycle};

use pre_bound::{completeness_law, order_law};

/// Where there is a good certificate, no refusal but want of memory has a cause; and where one has, no other has, but for
/// the choice of a cycle. Where ranks rise along each route, there is no cycle.
pub fn refusal_law()
    ensures none { GoodRefusesNone }
    ensures one { OneRefuses }
    ensures ranks { RanksLeaveNoCycle }
{
    order_law();
    completeness_law();
}
