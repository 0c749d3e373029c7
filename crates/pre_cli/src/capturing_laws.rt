ghost use Rattle.std.specs.Prelude.{◌≡◌, ℕ, List, ◌++◌, Some};
ghost use Rattle.pre_base.specs.Shelves.{Told};
ghost use Rattle.pre_base.specs.Sinks.{Taken};
ghost use Rattle.pre_base.specs.declared.numbers.ArcId.{ArcId};
ghost use Rattle.pre_history.specs.Legal.{Legal};
ghost use Rattle.pre_cli.specs.declared.statuses.Status.TheVariants as status;
ghost use Rattle.pre_cli.specs.Answers.{Outside};
ghost use Rattle.pre_cli.specs.Capturing.{capturing, scenario_in, CapturingLeaves, ReadsAsTold};
ghost use Rattle.pre_cli.specs.Due.{TellsFiles};
ghost use Rattle.pre_cli.specs.Readings.{OneOutcome, EndsAreDue};
ghost use Rattle.pre_cli.specs.Replaying.{RunsTo};
ghost use Rattle.pre_cli.specs.Words.{CaptureWords};
ghost use Rattle.pre_cli.specs.Written.{IsBeforeAlias};

/// Files come to one outcome of a capture at most: a text that isn't there at its turn; the first one that is refused, or no arc
/// with the name, behind the network; or one network, arc, streams and script that are run. This is answered, and then what the
/// run leads to, Done or the first alias, but where memory isn't found or the shelf or sink fails.
pub fn due_captures()
    ensures alone { (words : CaptureWords) → OneOutcome (capturing words) }
    ensures due { (words : CaptureWords) → EndsAreDue (capturing words) (λ x s. RunsTo (scenario_in x) s) }
{}

/// What `capture` wrote is a capture file, so `dissect` answers Done to it; and the text of its dissection tells the results of
/// the history: of a legal one where the answer was Done, and of the one before the first alias where it was Alias.
pub fn captures_are_read_back()
    ensures done { (words : CaptureWords) (o : Outside) (told : Told) (old new : Taken) (octets : List ℕ) → TellsFiles o told → o.taken_before ≡ Some old → o.taken_after ≡ Some new
        → new.octets ≡ old.octets ++ octets → CapturingLeaves words status.Done o → ReadsAsTold words told.files Legal octets }
    ensures alias { (words : CaptureWords) (o : Outside) (told : Told) (old new : Taken) (octets : List ℕ) (arc : ArcId) (ordinal : ℕ)
        → TellsFiles o told → o.taken_before ≡ Some old → o.taken_after ≡ Some new
        → new.octets ≡ old.octets ++ octets → CapturingLeaves words (status.Alias arc ordinal) o → ReadsAsTold words told.files (λ w h. IsBeforeAlias w arc.0 ordinal h) octets }
{
    pre_dissect::dissect_law();
    pre_pcap::read_back();
}
