ghost use Rattle.std.specs.Prelude.{◌≡◌};
ghost use Rattle.pre_base.specs.Faults.{HasCause};
ghost use Rattle.pre_base.specs.Told.{WhereTold};
ghost use Rattle.pre_base.specs.Sinks.{TakesAll};
ghost use Rattle.pre_draw.specs.Statuses.{usage, picture_text_of};

use pre_base::{Failed, Sink, write_all};
use pre_cli::{Status, put_status};

#[tactic(auto, unfolding(crate::specs::Statuses::usage))]
fn put_usage<S: Sink>(sink: &mut S) -> Result<(), Failed>
    ensures octets { WhereTold (S.tells sink.old) (S.tells sink.new) (TakesAll result usage) }
    ensures cause { HasCause (S.faults sink.old) (S.faults sink.new) result }
{
    write_all(sink, b"usage: preempt_picture run, queue or bounds")
}

/// Writes the text of a status, without an end of the line, and nothing for Done. It is that of `preempt`, but for wrong words.
pub fn put_picture_status<S: Sink>(status: &Status, sink: &mut S) -> Result<(), Failed>
    ensures octets { WhereTold (S.tells sink.old) (S.tells sink.new) (TakesAll result (picture_text_of status.now)) }
    ensures cause { HasCause (S.faults sink.old) (S.faults sink.new) result }
{
    match status {
        Status::Words => put_usage(sink),
        _ => put_status(status, sink),
    }
}
