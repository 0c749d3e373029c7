ghost use Rattle.pre_admit.specs.LocalLaw.{LeavesTheRest};

/// A stream more leaves what it doesn't touch, whatever certifies the streams before and after.
pub fn locality_law()
    ensures { LeavesTheRest }
{}
