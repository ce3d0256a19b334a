// Patterns over keys, and lists of patterns.

ghost use Rattle.control_defs.specs.Patterns.{IsPattern};

use super::*;

#[test]
fn patterns_cover_keys(rt: HostRuntime) {
    let report = Key {
        apid: 100,
        kind: Some((3, 25)),
    };
    let plain = Key {
        apid: 100,
        kind: None,
    };
    let other = Key {
        apid: 101,
        kind: Some((3, 25)),
    };
    let rows = [
        (Pattern::default(), [true, true, true]),
        (Pattern::App(100), [true, true, false]),
        (Pattern::Service(100, 3), [true, false, false]),
        (Pattern::Service(100, 25), [false, false, false]),
        (Pattern::Kind(100, 3, 25), [true, false, false]),
        (Pattern::Kind(100, 3, 3), [false, false, false]),
        (Pattern::Kind(101, 3, 25), [false, false, true]),
    ];
    for (pattern, covered) in rows {
        assert!(rt; pattern.covers(&report) == covered[0]);
        assert!(rt; pattern.covers(&plain) == covered[1]);
        assert!(rt; pattern.covers(&other) == covered[2]);
    }
    assert!(rt; Pattern::App(2047) < Pattern::Service(0, 0));
    assert!(rt; Pattern::Service(7, 3) < Pattern::Service(7, 4));
}

// The two patterns, added in turn, leave this list.
fn pair_leaves(first: Pattern, second: Pattern, expected: &[Pattern]) -> bool
    requires first { IsPattern first }
    requires second { IsPattern second }
{
    let mut patterns = Patterns::new();
    patterns.add(first).is_ok() && patterns.add(second).is_ok() && patterns.list() == expected
}

#[test]
fn the_wider_of_two_patterns_stays(rt: HostRuntime) {
    let every = Pattern::Every;
    let app = Pattern::App(100);
    let service = Pattern::Service(100, 3);
    let kind = Pattern::Kind(100, 3, 25);
    assert!(rt; pair_leaves(every, every, &[every]));
    assert!(rt; pair_leaves(every, app, &[every]));
    assert!(rt; pair_leaves(every, service, &[every]));
    assert!(rt; pair_leaves(every, kind, &[every]));
    assert!(rt; pair_leaves(app, every, &[every]));
    assert!(rt; pair_leaves(service, every, &[every]));
    assert!(rt; pair_leaves(kind, every, &[every]));
    assert!(rt; pair_leaves(app, app, &[app]));
    assert!(rt; pair_leaves(app, service, &[app]));
    assert!(rt; pair_leaves(app, kind, &[app]));
    assert!(rt; pair_leaves(service, app, &[app]));
    assert!(rt; pair_leaves(kind, app, &[app]));
    assert!(rt; pair_leaves(service, service, &[service]));
    assert!(rt; pair_leaves(service, kind, &[service]));
    assert!(rt; pair_leaves(kind, service, &[service]));
    assert!(rt; pair_leaves(kind, kind, &[kind]));
}

#[test]
fn patterns_that_are_apart_stand_in_order(rt: HostRuntime) {
    let app = Pattern::App(100);
    let service = Pattern::Service(100, 3);
    let kind = Pattern::Kind(100, 3, 25);
    assert!(rt;
        pair_leaves(
            Pattern::App(2047),
            Pattern::App(0),
            &[Pattern::App(0), Pattern::App(2047)]
        )
    );
    assert!(rt; pair_leaves(Pattern::Service(0, 0), app, &[app, Pattern::Service(0, 0)]));
    assert!(rt; pair_leaves(Pattern::Kind(0, 0, 0), app, &[app, Pattern::Kind(0, 0, 0)]));
    assert!(rt;
        pair_leaves(
            Pattern::Kind(101, 3, 25),
            service,
            &[service, Pattern::Kind(101, 3, 25)]
        )
    );
    assert!(rt;
        pair_leaves(
            Pattern::Service(100, 255),
            service,
            &[service, Pattern::Service(100, 255)]
        )
    );
    assert!(rt;
        pair_leaves(
            Pattern::Kind(100, 0, 25),
            service,
            &[service, Pattern::Kind(100, 0, 25)]
        )
    );
    assert!(rt;
        pair_leaves(
            Pattern::Kind(100, 3, 255),
            kind,
            &[kind, Pattern::Kind(100, 3, 255)]
        )
    );
}

#[test]
fn sixty_five_patterns_do_not_stand(rt: HostRuntime) {
    let mut patterns = Patterns::new();
    for service in 0..64 {
        assert!(rt; patterns.add(Pattern::Kind(2047, service, 255)) == Ok(()));
    }
    assert!(rt; patterns.add(Pattern::App(0)) == Err(Limit));
    assert!(rt; patterns.add(Pattern::Kind(2047, 64, 255)) == Err(Limit));
    assert!(rt; patterns.list().len() == 64);
    assert!(rt; patterns.list().first() == Some(&Pattern::Kind(2047, 0, 255)));
    assert!(rt; patterns.add(Pattern::Kind(2047, 5, 255)) == Ok(()));
    assert!(rt; patterns.add(Pattern::Service(2047, 63)) == Ok(()));
    assert!(rt; patterns.list().len() == 64);
    assert!(rt; patterns.list().first() == Some(&Pattern::Service(2047, 63)));
    assert!(rt; patterns.list().last() == Some(&Pattern::Kind(2047, 62, 255)));
    assert!(rt; patterns.add(Pattern::App(2047)) == Ok(()));
    assert!(rt; patterns.list() == [Pattern::App(2047)].as_slice());
}

#[test]
fn only_the_pattern_itself_is_removed(rt: HostRuntime) {
    let mut patterns = Patterns::new();
    let kept = [
        Pattern::App(7),
        Pattern::Service(100, 3),
        Pattern::Kind(200, 3, 25),
    ];
    assert!(rt; patterns.add(Pattern::Kind(200, 3, 25)) == Ok(()));
    assert!(rt; patterns.add(Pattern::Service(100, 3)) == Ok(()));
    assert!(rt; patterns.add(Pattern::App(7)) == Ok(()));
    assert!(rt; patterns.remove(Pattern::Every) == Err(Absent));
    assert!(rt; patterns.remove(Pattern::App(100)) == Err(Absent));
    assert!(rt; patterns.remove(Pattern::Kind(100, 3, 25)) == Err(Absent));
    assert!(rt; patterns.list() == kept.as_slice());
    assert!(rt;
        patterns.covers(&Key {
            apid: 100,
            kind: Some((3, 255))
        })
    );
    assert!(rt; patterns.remove(Pattern::Service(100, 3)) == Ok(()));
    assert!(rt;
        !patterns.covers(&Key {
            apid: 100,
            kind: Some((3, 255))
        })
    );
    assert!(rt; patterns.list() == [Pattern::App(7), Pattern::Kind(200, 3, 25)].as_slice());
}

#[test]
fn a_pattern_goes_behind_those_that_it_is_behind(rt: HostRuntime) {
    let mut patterns = Patterns::new();
    assert!(rt; patterns.append(Pattern::App(7)) == Ok(()));
    assert!(rt; patterns.append(Pattern::Service(100, 3)) == Ok(()));
    assert!(rt; patterns.append(Pattern::App(8)) == Err(Misplaced));
    assert!(rt; patterns.append(Pattern::Service(100, 3)) == Err(Misplaced));
    assert!(rt; patterns.append(Pattern::Kind(7, 0, 0)) == Err(Misplaced));
    assert!(rt; patterns.append(Pattern::Kind(100, 3, 25)) == Err(Misplaced));
    assert!(rt; patterns.append(Pattern::Kind(100, 4, 0)) == Ok(()));
    let expected = [
        Pattern::App(7),
        Pattern::Service(100, 3),
        Pattern::Kind(100, 4, 0),
    ];
    assert!(rt; patterns.list() == expected.as_slice());
}

#[test]
fn a_sixty_fifth_pattern_is_misplaced(rt: HostRuntime) {
    let mut patterns = Patterns::new();
    for service in 0..64 {
        assert!(rt; patterns.append(Pattern::Service(0, service)) == Ok(()));
    }
    assert!(rt; patterns.append(Pattern::Service(0, 64)) == Err(Misplaced));
    assert!(rt; patterns.list().len() == 64);
}

#[test]
fn five_octets_spell_a_pattern(rt: HostRuntime) {
    let rows = [
        ([9, 0, 0, 0, 0, 0], Pattern::Every),
        ([9, 1, 0, 7, 0, 0], Pattern::App(7)),
        ([9, 2, 7, 255, 3, 0], Pattern::Service(2047, 3)),
        ([9, 3, 0, 100, 3, 25], Pattern::Kind(100, 3, 25)),
    ];
    for (octets, pattern) in rows {
        let mut written = [9u8; 6];
        assert!(rt; wrong_in_pattern(&octets, 1).is_none());
        assert!(rt; spelled_pattern_at(&octets, 1) == Some(pattern));
        assert!(rt; put_pattern(pattern, &mut written, 1) == 6);
        assert!(rt; written == octets);
    }
}

#[test]
fn the_first_wrong_octet_of_a_pattern_is_named(rt: HostRuntime) {
    let rows = [
        ([4, 0, 0, 0, 0], 0),
        ([1, 8, 0, 0, 0], 1),
        ([0, 1, 7, 0, 0], 1),
        ([0, 0, 7, 0, 0], 2),
        ([0, 0, 0, 1, 0], 3),
        ([1, 0, 7, 1, 0], 3),
        ([1, 0, 7, 0, 1], 4),
        ([2, 0, 7, 3, 1], 4),
    ];
    for (octets, place) in rows {
        assert!(rt; wrong_in_pattern(&octets, 0) == Some(place));
        assert!(rt; spelled_pattern_at(&octets, 0).is_none());
    }
}
