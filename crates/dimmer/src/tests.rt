// The dimmer alone, and in rigs.
use super::*;
use device::{Before, PORTS, REFUSED, Rig, Row, Single};
use std::test::Fail;

#[test]
fn third_brighter_lights(rt: HostRuntime) {
    let mut lamp = Dimmer::new();
    assert_eq!(rt; lamp.ask(TAKE), DONE);
    assert_eq!(rt; lamp.ask(BRIGHTER), STAYS_DARK);
    assert_eq!(rt; lamp.ask(BRIGHTER), STAYS_DARK);
    assert_eq!(rt; lamp.ask(BRIGHTER), DONE);
    assert_eq!(rt;
        (lamp.station(), lamp.level(), lamp.heard()),
        (LIT, FULL, 4)
    );
    assert_eq!(rt; lamp.ask(DARKER), DONE);
    assert_eq!(rt; (lamp.station(), lamp.level()), (DARK, 0));
}

#[test]
fn wrong_letter_jams(rt: HostRuntime) {
    let mut lamp = Dimmer::new();
    assert_eq!(rt; lamp.ask(DARKER), REFUSED);
    assert_eq!(rt; (lamp.station(), lamp.heard()), (JAMMED, 1));
    assert_eq!(rt; lamp.ask(TAKE), REFUSED);
    assert_eq!(rt; (lamp.station(), lamp.heard()), (JAMMED, 2));
}

#[test]
fn letter_changes_its_port_alone(rt: HostRuntime) {
    let last = Single::new(Dimmer::new());
    let mut rig = Before::new(Dimmer::new(), Before::new(Dimmer::new(), last));
    assert_eq!(rt; rig.count(), 3);
    assert_eq!(rt; rig.ask(1, TAKE), DONE);
    assert_eq!(rt;
        (rig.station(0), rig.station(1), rig.station(2)),
        (AWAY, DARK, AWAY)
    );
    assert_eq!(rt; (rig.heard(0), rig.heard(1), rig.heard(2)), (0, 1, 0));
    assert_eq!(rt; rig.ask(3, TAKE), REFUSED);
    assert_eq!(rt; (rig.station(3), rig.heard(3)), (JAMMED, 0));
    assert_eq!(rt; rig.edge(3, AWAY, TAKE, DONE), None);
}

#[test]
fn nine_devices_are_eight_ports(rt: HostRuntime) -> Result<(), Fail> {
    let mut lamps = Vec::new(rt.alloc());
    for _ in 0..9 {
        lamps.push(Dimmer::new())?;
    }
    let Ok(row) = Row::new(lamps) else {
        return Err(Fail::new("the row is empty"));
    };
    assert_eq!(rt; (row.count(), row.devices().len()), (PORTS, 9));
    let mut rig = Before::new(Dimmer::new(), row);
    assert_eq!(rt; rig.count(), PORTS);
    assert_eq!(rt; rig.ask(7, TAKE), DONE);
    assert_eq!(rt; rig.rest().station(6), DARK);
    assert_eq!(rt; rig.ask(8, TAKE), REFUSED);
    assert_eq!(rt; (rig.rest().station(7), rig.station(8)), (AWAY, JAMMED));
    Ok(())
}

#[test]
fn no_device_is_no_row(rt: HostRuntime) -> Result<(), Fail> {
    let none: Vec<Dimmer> = Vec::new(rt.alloc());
    match Row::new(none) {
        Ok(_) => Err(Fail::new("a row of nothing")),
        Err(back) => {
            assert_eq!(rt; back.len(), 0);
            Ok(())
        },
    }
}
