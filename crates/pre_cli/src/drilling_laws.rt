ghost use Rattle.pre_cli.specs.Drilling.{DrillRuns, DrillRefuses, OneSummary};

/// The cause of an answer to a drill leaves no other. Where the plant has a good certificate with ranks, it is the one that the
/// run leads to, Done or the first alias; where there is a cause to refuse it, it is refused so; but where memory isn't found or
/// the sink fails.
pub fn due_drills()
    ensures runs { DrillRuns }
    ensures refuses { DrillRefuses }
{
    pre_plant::plants_are_one();
    pre_history::one_history();
}

/// What a drill takes is a function of its number: all drills of a number that are done took one text.
pub fn one_summary()
    ensures { OneSummary }
{
    pre_plant::plants_are_one();
    pre_history::one_history();
}
