ghost use Rattle.std.specs.Prelude.{◌≡◌, true, option_map};
ghost use Rattle.pre_verify.specs.Verifiers.{IsBelow};

use super::*;
use pre_base::Tick;
use std::test::Fail;

#[derive(Clone, Copy)]
enum Call {
    Settle(u64, bool),
    Begin(u64),
    End(u64),
    Respond(u64),
}

fn is_later(settled: Option<Tick>, now: Tick) -> bool
    ensures { result ≡ true → IsBelow (option_map (λ tick. tick.0) settled) now.0 }
{
    match settled {
        Some(settled) => settled.0 < now.0,
        None => true,
    }
}

// Makes a call, where it may be made.
fn make(verifier: &mut Verifier, call: Call) -> bool {
    let (Call::Settle(now, _) | Call::Begin(now) | Call::End(now) | Call::Respond(now)) = call;
    if now < verifier.latest.0 || now > 1_000_000_000_000_000_000 {
        return false;
    }
    match call {
        Call::Settle(now, good) => {
            if !is_later(verifier.settled, Tick(now)) {
                return false;
            }
            verifier.settle(Tick(now), good);
        }
        Call::Begin(now) => {
            if verifier.is_under_way() {
                return false;
            }
            if !verifier.wanted(Tick(now)) {
                return false;
            }
            verifier.begun(Tick(now));
        }
        Call::End(now) => {
            if !verifier.is_under_way() {
                return false;
            }
            verifier.verify_ended(Tick(now));
        }
        Call::Respond(now) => verifier.responded(Tick(now)),
    }
    true
}

// Whether the calls can be made, and lead to these states and dues.
fn goes(wait: u64, steps: &[(Call, VerifyState, Option<u64>)]) -> bool {
    if wait > 1_000_000_000_000 {
        return false;
    }
    let mut verifier = Verifier::new(wait);
    for (call, state, due) in steps {
        if !make(&mut verifier, *call) {
            return false;
        }
        if verifier.state() != *state || verifier.due().map(|tick| tick.0) != *due {
            return false;
        }
    }
    true
}

#[test]
fn verified_at_once(rt: HostRuntime) {
    calls_law();
    assert!(rt;
        goes(
            1000,
            &[
                (Call::Respond(2), VerifyState::Idle, None),
                (Call::Settle(5, true), VerifyState::Wanted, None),
                (Call::Begin(5), VerifyState::Sending, None),
                (Call::Respond(5), VerifyState::Sending, None),
                (Call::End(89), VerifyState::Waiting, Some(1089)),
                (Call::Respond(173), VerifyState::Verified, None),
                (Call::Settle(500, false), VerifyState::Idle, None),
            ]
        )
    );
}

#[test]
fn three_in_vain_and_a_late_respond(rt: HostRuntime) {
    assert!(rt;
        goes(
            1,
            &[
                (Call::Settle(0, true), VerifyState::Wanted, None),
                (Call::Begin(0), VerifyState::Sending, None),
                (Call::End(10), VerifyState::Waiting, Some(11)),
                (Call::Settle(11, true), VerifyState::Wanted, None),
                (Call::Begin(12), VerifyState::Sending, None),
                (Call::End(22), VerifyState::Waiting, Some(23)),
                (Call::Begin(23), VerifyState::Sending, None),
                (Call::End(33), VerifyState::Waiting, None),
                (Call::Settle(34, true), VerifyState::Failed, None),
                (Call::Respond(50), VerifyState::Verified, None),
            ]
        )
    );
}

#[test]
fn good_falls_and_rises(rt: HostRuntime) {
    assert!(rt;
        goes(
            1_000_000_000_000,
            &[
                (Call::Settle(0, true), VerifyState::Wanted, None),
                (Call::Begin(0), VerifyState::Sending, None),
                (Call::End(84), VerifyState::Waiting, Some(1_000_000_000_084)),
                (Call::Settle(90, false), VerifyState::Idle, None),
                (Call::Settle(100, true), VerifyState::Wanted, None),
                (Call::Respond(101), VerifyState::Wanted, None),
                (Call::Begin(102), VerifyState::Sending, None),
                (Call::Settle(110, false), VerifyState::Idle, None),
                (Call::Settle(111, true), VerifyState::Sending, None),
                (Call::Respond(112), VerifyState::Sending, None),
                (Call::End(186), VerifyState::Wanted, None),
                (Call::Begin(186), VerifyState::Sending, None),
                (Call::Respond(187), VerifyState::Verified, None),
            ]
        )
    );
}
