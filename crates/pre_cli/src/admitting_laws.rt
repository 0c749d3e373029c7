ghost use Rattle.std.specs.Prelude.{◌≡◌, ◌++◌, ℕ, List, Some};
ghost use Rattle.pre_base.specs.Shelves.{Told};
ghost use Rattle.pre_base.specs.Sinks.{Taken};
ghost use Rattle.pre_cli.specs.declared.statuses.Status.TheVariants as status;
ghost use Rattle.pre_cli.specs.Answers.{Outside};
ghost use Rattle.pre_cli.specs.Admitting.{adding, admitting, AdmissionsAreDue, GoodTakeMore, CauseRefusesPlan, AdmitsAll, AdmitsFront, ReadsAsHeld};
ghost use Rattle.pre_cli.specs.Due.{TellsFiles};
ghost use Rattle.pre_cli.specs.Readings.{OneOutcome, AnswerCause, AnswerLeaves};
ghost use Rattle.pre_cli.specs.Words.{AdmitWords};

/// Files come to one outcome of an admission at most: a text that isn't there at its turn, the first one that is refused, or
/// one network, streams and more streams; and this is answered, but where memory isn't found or the shelf or sink fails. Where
/// all are read, all is done where the streams have a good certificate with ranks, and what there is a cause to refuse them
/// for, a cycle too, is answered. The words are never wrong.
pub fn due_admissions()
    ensures alone { (words : AdmitWords) → OneOutcome (adding words) }
    ensures due { (words : AdmitWords) → AdmissionsAreDue words }
    ensures complete { (words : AdmitWords) → GoodTakeMore words }
    ensures refusal { (words : AdmitWords) → CauseRefusesPlan words }
    ensures words { (words : AdmitWords) (o : Outside) → ¬ AnswerCause (admitting words) status.Words o }
{}

/// What `admit` wrote where all was done is a certificate file as it stands: the lines before the certificate are comments, and
/// what is read behind them is the certificate of the streams held.
pub fn admissions_are_read_back()
    ensures { (words : AdmitWords) (o : Outside) (told : Told) (old new : Taken) (octets : List ℕ) → TellsFiles o told → o.taken_before ≡ Some old → o.taken_after ≡ Some new
        → new.octets ≡ old.octets ++ octets → AnswerLeaves (admitting words) AdmitsAll AdmitsFront status.Done o → ReadsAsHeld words told.files octets }
{
    pre_read_back::certificate_reads_back();
    pre_read_back::comments_are_skipped();
}
