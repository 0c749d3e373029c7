ghost use Rattle.pre_cli.specs.declared.statuses.Status.TheVariants as status;
ghost use Rattle.pre_cli.specs.Answers.{Outside};
ghost use Rattle.pre_cli.specs.Readings.{OneOutcome, DueIsAnswered, AnswerCause};
ghost use Rattle.pre_cli.specs.Judging.{judging};
ghost use Rattle.pre_cli.specs.Words.{JudgeWords};

/// Where a certificate is to be judged or migrated, files come to one outcome at most: a text that isn't there at its turn, the
/// first one that is refused or a certificate that is rejected, or one network, streams and a good certificate for them; and
/// this is answered, but where memory isn't found or the shelf or sink fails. The words are never wrong.
pub fn due_verdicts()
    ensures alone { (words : JudgeWords) → OneOutcome (judging words) }
    ensures due { (words : JudgeWords) → DueIsAnswered (judging words) }
    ensures words { (words : JudgeWords) (o : Outside) → ¬ AnswerCause (judging words) status.Words o }
{}
