use crate::{Device, LetterMap, Pair, Patch, Projector, Trail};
use std::process::Abort;
use std::test::Fail;

// Letter j goes down as j - 1, and letter 0 as none.
const SHIFT: [u8; 16] = [255, 0, 1, 2, 3, 4, 5, 6, 7, 8, 9, 10, 11, 12, 13, 14];

// Each step is a letter, its answer, and the station then.
fn asks<D: Device>(rt: &impl Abort, device: &mut D, steps: &[(u8, u8, u8)]) {
    for step in steps {
        assert_eq!(rt; device.ask(step.0), step.1);
        assert_eq!(rt; device.station(), step.2);
    }
}

#[test]
fn projector_stands_everywhere(rt: HostRuntime) {
    let mut projector = Projector::new(&[4, 3]);
    asks(
        &rt,
        &mut projector,
        &[
            (0, 0, 1),
            (2, 0, 2),
            (3, 1, 2),
            (3, 0, 3),
            (4, 0, 4),
            (5, 0, 3),
            (6, 0, 1),
            (1, 0, 0),
            (3, 255, 16),
            (0, 255, 16),
        ],
    );
    assert_eq!(rt; projector.heard(), 10);
}

#[test]
fn replies_end(rt: HostRuntime) {
    let mut projector = Projector::new(&[2]);
    asks(
        &rt,
        &mut projector,
        &[(0, 0, 1), (2, 0, 2), (3, 2, 1), (2, 0, 2), (3, 0, 3)],
    );
}

#[test]
fn maps_are_checked(rt: HostRuntime) {
    assert!(rt; LetterMap::new(&[0; 15]).is_err());
    assert!(rt; LetterMap::new(&[16; 16]).is_err());
    assert!(rt; LetterMap::new(&SHIFT).is_ok());
}

// The last letter stays in the upper patch.
#[test]
fn patches_stack(rt: HostRuntime) -> Result<(), Fail> {
    let Ok(map) = LetterMap::new(&SHIFT) else {
        return Err(Fail::new("the map is refused"));
    };
    let mut patch = Patch::new(map, Patch::new(map, Projector::new(&[])));
    assert_eq!(rt; patch.edge(0, 2, 0), Some(1));
    asks(&rt, &mut patch, &[(2, 0, 1), (4, 0, 2), (2, 255, 16)]);
    assert_eq!(rt; patch.heard(), 3);
    assert_eq!(rt; patch.below().heard(), 2);
    Ok(())
}

#[test]
fn trail_shows_the_last(rt: HostRuntime) -> Result<(), Fail> {
    let Ok(map) = LetterMap::new(&SHIFT) else {
        return Err(Fail::new("the map is refused"));
    };
    let mut trail = Trail::new(Patch::new(map, Projector::new(&[])));
    for _ in 0..19 {
        asks(&rt, &mut trail, &[(1, 0, 1), (2, 0, 0)]);
    }
    asks(&rt, &mut trail, &[(1, 0, 1), (9, 255, 16)]);
    assert_eq!(rt; trail.pairs(), 32);
    assert_eq!(rt;
        trail.pair(0),
        Some(Pair {
            letter: 1,
            answer: 0,
        })
    );
    assert_eq!(rt;
        trail.pair(31),
        Some(Pair {
            letter: 9,
            answer: 255,
        })
    );
    Ok(())
}
