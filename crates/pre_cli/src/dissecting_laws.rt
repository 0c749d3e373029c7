ghost use Rattle.std.specs.Prelude.{ℕ, List};
ghost use Rattle.pre_cli.specs.declared.statuses.Status.TheVariants as status;
ghost use Rattle.pre_cli.specs.Answers.{Outside};
ghost use Rattle.pre_cli.specs.Dissecting.{DissectingCause, MissingCapture, LongCapture, WholeCapture, FaultyCapture};

/// The cause of an answer to a capture file leaves no other: a file that isn't there, one that is too long, a capture, and a file
/// with a first fault are answered as such, but where memory isn't found or the shelf or sink fails.
pub fn due_dissections()
    ensures words { (name : List ℕ) (o : Outside) → ¬ DissectingCause status.Words name o }
    ensures missing { MissingCapture }
    ensures long { LongCapture }
    ensures whole { WholeCapture }
    ensures faulty { FaultyCapture }
{
    pre_pcap::one_capture();
}
