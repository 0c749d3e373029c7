ghost use Rattle.std.specs.Prelude.{◌≡◌, ℕ, List, ◌++◌, Some};
ghost use Rattle.pre_base.specs.Shelves.{Told};
ghost use Rattle.pre_base.specs.Sinks.{Taken};
ghost use Rattle.pre_topo.specs.declared.network.Network.{Network};
ghost use Rattle.pre_bound.specs.declared.certificate.Certificate.{Certificate};
ghost use Rattle.pre_history.specs.History.{History};
ghost use Rattle.pre_history.specs.Scenario.{Scenario};
ghost use Rattle.pre_trace.specs.Text.{text};
ghost use Rattle.pre_history.specs.Written.{AreWritten};
ghost use Rattle.pre_cli.specs.declared.statuses.Status.{Status};
ghost use Rattle.pre_cli.specs.declared.statuses.Status.TheVariants as status;
ghost use Rattle.pre_cli.specs.Answers.{Outside};
ghost use Rattle.pre_cli.specs.Commands.{command_of, unknown, CauseOf};
ghost use Rattle.pre_cli.specs.Readings.{OneOutcome, EndsAreDue};
ghost use Rattle.pre_cli.specs.Due.{TellsFiles};
ghost use Rattle.pre_cli.specs.Headline.{Headline};
ghost use Rattle.pre_cli.specs.Replaying.{RunsTo, replaying, scenario_in, Replayed, ReplayingLeaves};
ghost use Rattle.pre_cli.specs.Words.{ReplayWords};

/// The cause of each answer leaves no other answer. Wrong words are answered as such. Where a script is to be run, files
/// come to one outcome at most: a text that isn't there at its turn; the first one that is refused, a certificate that is
/// rejected or sends that break a curve; or one network, streams, certificate and script that are run. A run leads to one
/// answer, Done or the first alias. This is answered, but where memory isn't found or the shelf or sink fails.
pub fn due_answers()
    ensures words { (s : Status) (words : List (List ℕ)) (o : Outside) → command_of words ≡ unknown → CauseOf s words o → s ≡ status.Words }
    ensures known { (words : List (List ℕ)) (o : Outside) → CauseOf status.Words words o → command_of words ≡ unknown }
    ensures alone { (words : ReplayWords) → OneOutcome (replaying words) }
    ensures runs { (w : Scenario) → (s : Status) × RunsTo w s × ((t : Status) → RunsTo w t → t ≡ s) }
    ensures replay { (words : ReplayWords) → EndsAreDue (replaying words) (λ x s. RunsTo (scenario_in x) s) }
{
    pre_history::one_history();
}

/// Where the answer to a script is Done, the shelf tells its files and the sink its octets, the headline holds of the network,
/// the streams, the certificate and the script that the files spell, and of what the sink took.
pub fn headline()
    ensures { (words : ReplayWords) (o : Outside) (told : Told) (old new : Taken) → TellsFiles o told → o.taken_before ≡ Some old → o.taken_after ≡ Some new
        → ReplayingLeaves words status.Done o → Replayed words told.files old new }
{}

/// What a sink took beyond what it had is the text of one history at most, of those that can be told over the network. So
/// where it took a run's trace, every such history with that text is the one of which the headline holds.
pub fn one_trace()
    ensures same { (net : Network) (old new : Taken) (g h : History) → AreWritten net g → AreWritten net h → new.octets ≡ old.octets ++ text net g → new.octets ≡ old.octets ++ text net h → g ≡ h }
    ensures headline { (w : Scenario) (c : Certificate) (old new : Taken) (h : History) → (x : Headline w c old new) → AreWritten w.net h → new.octets ≡ old.octets ++ text w.net h → h ≡ x.history }
{
    pre_trace::one_told_history();
}
