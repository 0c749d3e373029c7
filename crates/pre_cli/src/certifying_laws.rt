ghost use Rattle.std.specs.Prelude.{ℕ, List};
ghost use Rattle.pre_cli.specs.declared.statuses.Status.TheVariants as status;
ghost use Rattle.pre_cli.specs.Answers.{Outside};
ghost use Rattle.pre_cli.specs.Certifying.{CertifyingCause};
ghost use Rattle.pre_cli.specs.DueCertificates.{MissingNetwork, RefusedNetwork, MissingStreams, RefusedStreams, BothRead, GoodIsCertified, CauseIsAnswered, SettledIsCertified, FaultIsAnswered};

/// Where a network and streams are to be certified, a network's text that isn't there, and one that is too long or has a
/// fault, is answered as such, but where memory isn't found or the shelf fails; and where the network is read, so are the
/// streams. Where both are read, all is done where there is a good certificate with ranks, but where the sink fails; and what there
/// is a cause to refuse, but a cycle, is refused so. Where the routes have a cycle, all is done likewise where no fault of the
/// rounds has a cause, and a fault that has one is answered.
pub fn due_certificates()
    ensures words { (net_word streams_word : List ℕ) (o : Outside) → ¬ CertifyingCause status.Words net_word streams_word o }
    ensures missing { MissingNetwork }
    ensures network { RefusedNetwork }
    ensures missing_streams { MissingStreams }
    ensures streams { RefusedStreams }
    ensures both { BothRead }
    ensures complete { GoodIsCertified }
    ensures refusal { CauseIsAnswered }
    ensures settled { SettledIsCertified }
    ensures fault { FaultIsAnswered }
{}
