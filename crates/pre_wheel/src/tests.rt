ghost use Rattle.std.specs.Prelude.{◌≡◌, ℕ, ◌<◌};
ghost use Rattle.std.specs.Option.{option_map};
ghost use Rattle.std.specs.FinMap as map;
ghost use Rattle.pre_wheel.specs.Dues.{Dues, IsFirstDue};
ghost use Rattle.pre_wheel.specs.Until.{is_over};

use super::*;
use pre_base::Tick;
use std::test::Fail;

#[derive(Drop)]
struct Alarm {
    called: Tick,
    at: Option<Tick>,
}

// It tells whether it rings: from the tick on at which it is set.
impl Timed for Alarm {
    ghost use Rattle.std.specs.Prelude.{Bool};
    ghost use Rattle.pre_wheel.specs.Until.{is_over, is_over-before};

    ghost last = { λ a. a.called.0 };

    ghost falls_due = { λ a. a.at };

    ghost Told = { Bool };

    ghost told = { λ a t. is_over a.at t };

    fn due(&self) -> Option<Tick> {
        self.at
    }

    ghost stays = { λ a t later before. is_over-before a.at a.called.0 t later before };
}

// An alarm on a wheel rings at no tick below the least entry's where it didn't ring before.
fn alarms_stay()
    ensures { (dues : Dues) (first tick member t : ℕ) (a : Alarm)
        → IsFirstDue dues first tick → map.get dues.due member ≡ option_map (λ d. d.0) a.at
        → a.called.0 < t → t < tick → is_over a.at t ≡ is_over a.at a.called.0 }
{
    machines_stay::<Alarm>();
}

#[test]
fn an_alarm_is_due(rt: HostRuntime) {
    let alarm = Alarm {
        called: Tick(3),
        at: Some(Tick(8)),
    };
    assert_eq!(rt; alarm.due(), Some(Tick(8)));
    alarms_stay();
}

// Two members at one tick, one member that is set twice, and one whose tick is taken away.
#[test]
fn least_entries_first(rt: HostRuntime) -> Result<(), Fail> {
    let mut wheel = Wheel::make(rt.alloc(), 5)?;
    wheel.set(3, Some(Tick(10)));
    wheel.set(1, Some(Tick(10)));
    wheel.set(4, Some(Tick(5)));
    wheel.set(0, Some(Tick(1)));
    wheel.set(4, Some(Tick(4_000_000_000_000)));
    wheel.set(0, None);
    assert_eq!(rt; wheel.next(), Some((Tick(10), 1)));
    assert_eq!(rt; wheel.next(), Some((Tick(10), 3)));
    assert_eq!(rt; wheel.next(), Some((Tick(4_000_000_000_000), 4)));
    assert_eq!(rt; wheel.next(), None);
    Ok(())
}

// 997 is a prime, so each of the ticks 0 to 996 stands once.
#[test]
fn many_members(rt: HostRuntime) -> Result<(), Fail> {
    let mut wheel = Wheel::make(rt.alloc(), 997)?;
    for member in 0..997_u16 {
        wheel.set(member, Some(Tick(u64::from(member) * 100 % 997)));
    }
    for tick in 0..997_u64 {
        let entry = wheel.next().ok_or("no entry is left")?;
        assert_eq!(rt; entry.0, Tick(tick));
        assert_eq!(rt; u64::from(entry.1) * 100 % 997, tick);
    }
    assert_eq!(rt; wheel.next(), None);
    assert_eq!(rt; Wheel::make(rt.alloc(), 0)?.next(), None);
    Ok(())
}
