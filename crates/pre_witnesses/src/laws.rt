ghost use Rattle.pre_history.specs.Scenario.{Scenario};
ghost use Rattle.pre_history.specs.Legal.{Legal};
ghost use Rattle.pre_streams.specs.Fits as streams;
ghost use Rattle.pre_script.specs.Fits as script;
ghost use Rattle.pre_witnesses.specs.CutFrame.{CutsFrame, cut_frame};
ghost use Rattle.pre_witnesses.specs.VerifiedLink.{VerifiesLink, verified_link};

/// A frame of 1522 octets of a flow is sent at tick 0, and an express frame of 64 octets at tick 20. The first one is cut after
/// 60 octets of mData, the express frame goes, and then the rest of the first one; both arrive whole. The history of the built-in
/// network and streams with that script is told event by event and legal, and there is such a scenario, whose script fits.
pub fn a_frame_is_cut()
    ensures legal { (w : Scenario) → CutsFrame w → Legal w (cut_frame w) }
    ensures some { (w : Scenario) × CutsFrame w × script.Fits w.net w.streams w.script }
{}

/// Both ends of a link negotiate. Each tells the other at tick 0 that preemption is enabled, sends a verify once it has heard
/// that, and responds to the other's verify; at tick 240 the responds arrive, and preemption is active both ways. That history is
/// told event by event and legal, and there is such a scenario, whose streams and script fit.
pub fn a_link_is_verified()
    ensures legal { (w : Scenario) → VerifiesLink w → Legal w verified_link }
    ensures some { (w : Scenario) × VerifiesLink w × streams.Fits w.net w.streams × script.Fits w.net w.streams w.script }
{}
