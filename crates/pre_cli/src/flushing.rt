ghost use Rattle.std.specs.Prelude.{◌≤◌};
ghost use Rattle.pre_cli.specs.Runs.{FlushEnds};

use crate::Status;
use pre_base::Sink;

/// Passes on what was written: the status given, or that the sink failed.
pub fn flushed<S: Sink>(sink: &mut S, status: Status) -> Status
    ensures ends { FlushEnds status result (S.tells sink.old) (S.tells sink.new) (S.faults sink.old) (S.faults sink.new) }
    ensures later { S.faults sink.old ≤ S.faults sink.new }
{
    match sink.flush() {
        Ok(()) => status,
        Err(_) => Status::WriteFault,
    }
}
