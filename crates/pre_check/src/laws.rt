ghost use Rattle.pre_check.specs.Migration.{Migrates};

/// A text of version 1 whose numbers meet the ten clauses of the older rules is read as a good certificate exactly where
/// each arc that both a stream and a flow use carries preemptable frames of at most 1522 octets.
pub fn migration_law()
    ensures { Migrates }
{}
