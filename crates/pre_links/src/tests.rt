use super::*;
use pre_base::{ArcId, NodeId, Tick};
use pre_lldp::{Advert, write_lldp};
use pre_script::Setting;

// The frame of an end that enables preemption, for so many units of time.
fn enabled(ttl: u16) -> [u8; 64] {
    let advert = Advert {
        enabled: true,
        active: false,
        add_frag: 0,
        ttl,
    };
    let mut frame = [0; 64];
    write_lldp(&advert, NodeId(1), ArcId(1), &mut frame);
    frame
}

// An advert is heard at tick 1 and counts below tick 5; the verify that begins at tick 1 ends at 2, and
// its respond comes at 3.
fn negotiates() -> bool {
    let mut partner = Partner::unheard(1);
    let mut link = Link::idle(1000);
    let none = link.settle(Tick(0), Setting::On, &partner, 100);
    if none.is_some() || !link.wants_lldp() || link.wants_verify(Tick(0)) {
        return false;
    }
    link.lldp_begun();
    if link.wants_lldp() {
        return false;
    }
    partner.lldp(Tick(1), &enabled(4));
    let none = link.settle(Tick(1), Setting::On, &partner, 100);
    if none.is_some() || !link.wants_verify(Tick(1)) {
        return false;
    }
    link.verify_begun(Tick(1));
    link.mpacket_ended(Tick(2));
    let none = link.settle(Tick(2), Setting::On, &partner, 100);
    partner.respond(Tick(3));
    let begins = link.settle(Tick(3), Setting::On, &partner, 100);
    let says = link.advert(1, 9);
    let active = none.is_none() && begins == Some(true) && link.is_active() && link.wants_lldp();
    let none = link.settle(Tick(4), Setting::On, &partner, 100);
    let ends = link.settle(Tick(5), Setting::On, &partner, 100);
    active && says.active && says.ttl == 9 && none.is_none() && ends == Some(false)
}

#[test]
fn active_until_the_advert_runs_out(rt: HostRuntime) {
    assert!(rt; negotiates());
}

// Each verify is answered by one respond, and a change of the setting by an LLDP frame with no time to
// live where the arc is gone.
fn answers() -> bool {
    let mut partner = Partner::unheard(1);
    let mut link = Link::idle(1000);
    link.settle(Tick(7), Setting::On, &partner, 100);
    let before = link.owes_respond(&partner) || link.wants_lldp();
    partner.verify(Tick(8));
    link.settle(Tick(8), Setting::Gone, &partner, 100);
    let owed = link.owes_respond(&partner) && link.wants_lldp();
    link.respond_begun(Tick(8));
    let says = link.advert(0, 9);
    let once = !link.owes_respond(&partner);
    partner.verify(Tick(9));
    !before && owed && once && link.owes_respond(&partner) && !says.enabled && says.ttl == 0
}

#[test]
fn a_verify_is_answered_once(rt: HostRuntime) {
    arrivals_over();
    adverts_are_read();
    adverts_are_sent();
    calm_arcs();
    events_elsewhere();
    links_get_ready();
    other_begins();
    phases_elsewhere();
    quiet_ticks();
    assert!(rt; answers());
}
