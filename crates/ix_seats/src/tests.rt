//! A lane in its seat, call by call.
use super::*;
use ix_lanes::{AskResult, Lane, Turn, laws};
use ix_machine::Outcome;
use ix_plan::Script;
use ix_tables::{Tables, Version};
use ix_types::Sha;
use std::alloc::Global;
use std::process::Abort;
use std::sync::Arc;

/// A lane that asks with nothing held, takes a version up, asks that, and lets it go.
const SCRIPT: &str =
    r#"{"format":1,"lanes":[[{"do":"ask","query":"def","usr":"u"},{"do":"refresh"},{"do":"ask","query":"def","usr":"u"},{"do":"release"}]]}"#;

/// The lane's call is told.
fn tell(rt: &impl Abort, seat: &mut Seat, made: Made) {
    seat.reserve().expect(rt, "memory");
    seat.tell(made);
}

/// No ask is left in front.
fn settle(alloc: Global, rt: &impl Abort, seat: &mut Seat) {
    let lacking = seat.settle(alloc).expect(rt, "memory");
    assert!(rt; lacking.is_none());
}

/// The version of no units.
fn empty(alloc: Global, rt: &impl Abort) -> Arc<Version> {
    let version = Version {
        number: 0,
        tables: Tables::empty(),
    };
    Arc::new(alloc, version).expect(rt, "memory")
}

#[test]
fn a_lane_asks_the_version_that_it_holds(rt: HostRuntime) {
    let alloc = rt.alloc();
    let script = Script::read(alloc, SCRIPT.as_bytes()).expect(&rt, "a script");
    let steps = script.lanes.as_slice().first().expect(&rt, "a lane");
    laws::steps_are_ready();
    let lane = Lane::new(alloc, steps, &Sha).expect(&rt, "memory");
    let mut seat = Seat::of(lane);
    settle(alloc, &rt, &mut seat);
    assert!(rt; matches!(seat.next(), Some(Turn::Adopt)));
    tell(
        &rt,
        &mut seat,
        Made::TakenUp(Outcome::At { mark: 0 }, empty(alloc, &rt)),
    );
    settle(alloc, &rt, &mut seat);
    assert_eq!(rt; seat.lane().held(), Some(0));
    tell(&rt, &mut seat, Made::LetGo(Outcome::Done));
    settle(alloc, &rt, &mut seat);
    assert!(rt; seat.next().is_none());
    let answers = seat.into_answers();
    let answers = answers.as_slice();
    assert_eq!(rt; answers.len(), 2);
    assert_eq!(rt; answers[0].mark, None);
    assert_eq!(rt; answers[1].mark, Some(0));
}
