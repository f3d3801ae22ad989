//! What no clause says: that there is memory for each call, and values worked by hand.
ghost use Rattle.std.specs.Prelude.{◌-◌, ◌^◌, ◌+ℤ◌, ◌≤ℤ◌, pos};
ghost use Rattle.board_core.specs.Machine.{IsStart, all_squares};

use bidegree::{Range, Shape};
use board_core::{Cause, Core, CoreFault, Event};
use memory::Memory;
use std::alloc::Global;
use std::test::Fail;

// The board of a rectangle.
fn rectangle(
    alloc: Global,
    s: u16,
    t: u16,
    bottom: i32,
    start: &[(u16, i32)],
) -> Result<Core, Memory>
    requires fits { (bottom +ℤ pos t) ≤ℤ pos (2 ^ 31 - 1) }
    requires start { IsStart all_squares bottom start.now }
{
    Core::new(alloc, Shape::Rectangle, Range { s, t }, bottom, start)
}

#[test]
fn first_square(rt: HostRuntime) -> Result<(), Fail> {
    let mut core = rectangle(rt.alloc(), 0, 1, 0, &[])?;
    assert_eq!(rt; core.ready(), Some((0, 0)));
    let give = Event::Give { who: 7, s: 0, t: 0 };
    assert_eq!(rt; core.apply(give), Err(CoreFault::NotLegal { event: give }));
    let take = Event::Take {
        who: 7,
        s: 0,
        t: 0,
        snapshot: (0, 0),
    };
    assert_eq!(rt; core.apply(take), Ok(()));
    assert!(rt; core.out(0, 0));
    assert_eq!(rt; core.ready(), None);
    assert_eq!(rt; core.apply(take), Err(CoreFault::NotLegal { event: take }));
    assert_eq!(rt; core.apply(give), Ok(()));
    assert!(rt; core.done(0, 0));
    assert!(rt; !core.out(0, 0));
    assert_eq!(rt; core.ready(), Some((0, 1)));
    Ok(())
}

#[test]
fn causes(rt: HostRuntime) -> Result<(), Fail> {
    let mut core = rectangle(rt.alloc(), 1, 1, 0, &[(0, 0), (0, 1)])?;
    core.reserve(1)?;
    assert_eq!(rt; core.ready(), Some((1, 0)));
    let take = Event::Take {
        who: 1,
        s: 1,
        t: 0,
        snapshot: (0, 2),
    };
    assert_eq!(rt; core.apply(take), Ok(()));
    let back = Event::Back { who: 1, s: 1, t: 0 };
    assert_eq!(rt; core.apply(back), Ok(()));
    assert_eq!(rt; core.stopped(), Some(Cause::Memory));
    assert_eq!(rt; core.ready(), None);
    assert_eq!(rt; core.apply(take), Err(CoreFault::NotLegal { event: take }));
    let mut core = rectangle(rt.alloc(), 0, 0, -3, &[])?;
    let take = Event::Take {
        who: 1,
        s: 0,
        t: -3,
        snapshot: (0, 0),
    };
    assert_eq!(rt; core.apply(take), Ok(()));
    let fail = Event::Fail {
        who: 1,
        s: 0,
        t: -3,
    };
    assert_eq!(rt; core.apply(fail), Ok(()));
    assert_eq!(rt; core.stopped(), Some(Cause::Failed));
    Ok(())
}

/// Takes and gives a square of a board with bottom 0, where its row is done up to it and so many squares of the row below are.
fn take_and_give(core: &mut Core, s: u16, t: i32, below: u64) -> Result<(), CoreFault> {
    core.apply(Event::Take {
        who: 0,
        s,
        t,
        snapshot: (u64::from(t.unsigned_abs()), below),
    })?;
    core.apply(Event::Give { who: 0, s, t })
}

/// Takes the first square of a board with one row and bottom 0.
const FIRST: Event = Event::Take {
    who: 1,
    s: 0,
    t: 0,
    snapshot: (0, 0),
};

const STOP: Event = Event::Stop { in_file: None };

#[test]
fn stops_and_opens(rt: HostRuntime) -> Result<(), Fail> {
    let mut core = rectangle(rt.alloc(), 0, 1, 0, &[])?;
    let open = Event::Open;
    assert_eq!(rt; core.apply(open), Err(CoreFault::NotLegal { event: open }));
    assert_eq!(rt; take_and_give(&mut core, 0, 0, 0), Ok(()));
    assert_eq!(rt; core.apply(STOP), Ok(()));
    assert!(rt; !core.done(0, 0));
    assert_eq!(rt; core.ready(), None);
    assert_eq!(rt; core.apply(STOP), Err(CoreFault::NotLegal { event: STOP }));
    assert_eq!(rt;
        core.apply(FIRST),
        Err(CoreFault::NotLegal { event: FIRST })
    );
    assert_eq!(rt; core.apply(open), Ok(()));
    assert!(rt; core.done(0, 0));
    assert_eq!(rt; core.ready(), Some((0, 1)));
    assert_eq!(rt; core.apply(open), Err(CoreFault::NotLegal { event: open }));
    Ok(())
}

#[test]
fn a_stop_finds_a_square_in_the_file(rt: HostRuntime) -> Result<(), Fail> {
    let fail = Event::Fail { who: 1, s: 0, t: 0 };
    let back = Event::Back { who: 1, s: 0, t: 0 };
    let give = Event::Give { who: 1, s: 0, t: 0 };
    let second = Some((0, 1));
    // what happens to the first square, how the run ends, whether that is accepted, and the square that is then ready
    let cases = [
        (None, None, true, Some((0, 0))),
        (None, Some((0, 0)), true, second),
        (None, Some((0, 1)), false, None),
        (None, Some((1, 0)), false, None),
        (None, Some((0, -1)), false, None),
        (Some(fail), None, true, Some((0, 0))),
        (Some(fail), Some((0, 0)), true, second),
        (Some(fail), Some((0, 1)), false, None),
        (Some(back), None, true, Some((0, 0))),
        (Some(back), Some((0, 0)), false, None),
        (Some(give), None, true, second),
        (Some(give), Some((0, 0)), false, second),
    ];
    for (event, in_file, accepted, ready) in cases.iter() {
        let mut core = rectangle(rt.alloc(), 0, 1, 0, &[])?;
        assert_eq!(rt; core.apply(FIRST), Ok(()));
        if let Some(event) = event {
            assert_eq!(rt; core.apply(*event), Ok(()));
        }
        let stop = Event::Stop { in_file: *in_file };
        if *accepted {
            assert_eq!(rt; core.apply(stop), Ok(()), "at {in_file:?}");
            assert_eq!(rt; core.apply(Event::Open), Ok(()), "at {in_file:?}");
            assert_eq!(rt; core.stopped(), None);
        } else {
            assert_eq!(rt;
                core.apply(stop),
                Err(CoreFault::NotLegal { event: stop }),
                "at {in_file:?}"
            );
        }
        assert_eq!(rt; core.ready(), *ready, "at {in_file:?}");
    }
    Ok(())
}

#[test]
fn whole_board(rt: HostRuntime) -> Result<(), Fail> {
    let mut core = rectangle(rt.alloc(), 127, 255, 0, &[])?;
    for _ in 0..32768 {
        let Some((s, t)) = core.ready() else {
            break;
        };
        let below = if s == 0 {
            0
        } else {
            u64::from(t.unsigned_abs()) + 1
        };
        if take_and_give(&mut core, s, t, below).is_err() {
            break;
        }
    }
    assert_eq!(rt; core.ready(), None);
    for s in 0..128 {
        for t in 0..256 {
            assert!(rt; core.done(s, t), "at {s} {t}");
        }
    }
    Ok(())
}

#[test]
fn greatest_range(rt: HostRuntime) -> Result<(), Fail> {
    let mut core = rectangle(rt.alloc(), 65535, 65535, -65536, &[])?;
    assert_eq!(rt; core.ready(), Some((0, -65536)));
    for s in 0..=65535 {
        let t = -65536;
        let below = if s == 0 { 0 } else { 1 };
        let take = Event::Take {
            who: 0,
            s,
            t,
            snapshot: (0, below),
        };
        assert_eq!(rt; core.apply(take), Ok(()), "at {s}");
        assert_eq!(rt; core.apply(Event::Give { who: 0, s, t }), Ok(()), "at {s}");
    }
    assert!(rt; core.done(65535, -65536));
    assert_eq!(rt; core.ready(), Some((0, -65535)));
    Ok(())
}

#[test]
fn start_past_the_range(rt: HostRuntime) -> Result<(), Fail> {
    let start = [(0, 5), (1, 5), (2, 5), (0, 6)];
    let core = rectangle(rt.alloc(), 0, 1, 5, &start)?;
    assert!(rt; core.done(2, 5));
    assert!(rt; !core.done(2, 6));
    assert!(rt; !core.done(3, 5));
    assert_eq!(rt; core.ready(), None);
    Ok(())
}

#[test]
fn through_a_stem(rt: HostRuntime) -> Result<(), Fail> {
    let range = Range { s: 2, t: 3 };
    let mut core = Core::new(rt.alloc(), Shape::Stems, range, 0, &[])?;
    // what is ready, one after another, and how many squares of the row below are done then; (0, 2) and (1, 3) are the
    // squares behind the last of their rows
    let squares = [
        (0, 0, 0),
        (1, 0, 1),
        (2, 0, 1),
        (0, 1, 0),
        (1, 1, 2),
        (2, 1, 2),
        (0, 2, 0),
        (1, 2, 3),
        (2, 2, 3),
        (1, 3, 3),
        (2, 3, 4),
    ];
    for (s, t, below) in squares.iter() {
        assert_eq!(rt; core.ready(), Some((*s, *t)));
        assert_eq!(rt;
            take_and_give(&mut core, *s, *t, *below),
            Ok(()),
            "at {s} {t}"
        );
    }
    assert_eq!(rt; core.ready(), None);
    Ok(())
}
