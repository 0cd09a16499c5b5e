//! Whose turn it is.
ghost use Rattle.std.specs.Prelude.{[]};

use super::*;
use ix_types::Memory;

/// Lanes with so many calls left, and those that made one, in order.
#[derive(Drop)]
struct Counted {
    left: Vec<u32>,
    turns: Vec<u32>,
}

impl Stepper for Counted {
    ghost name_of = { λ bytes. bytes };

    ghost stands = { λ s lanes run. ⊥ };

    ghost leaves = { λ first start s run. Unit {0} };

    ghost wants = { λ s run. Unit {0} };

    ghost can_step = { λ s. Unit {0} };

    ghost events = { λ s. [] };

    ghost counts = { λ s. record { faults = 0; finds = 0; listings = 0 } };

    fn step(&mut self, lane: u32) -> Result<bool, Memory> {
        let place = lane as usize;
        if place >= self.left.len() || self.left[place] == 0 {
            return Ok(false);
        }
        self.left[place] -= 1;
        self.turns.push(lane)?;
        Ok(true)
    }
}

#[test]
fn lanes_take_turns_by_the_order_and_then_one_after_the_other(rt: HostRuntime) {
    let alloc = rt.alloc();
    let mut lanes = Counted {
        left: Vec::from_array(alloc, [2, 1, 1]).expect(&rt, "memory"),
        turns: Vec::new(alloc),
    };
    assert!(rt; run_script(&mut lanes, &[1, 1, 0], 3).is_ok());
    assert!(rt; lanes.turns.as_slice() == [1, 0, 0, 2].as_slice());
}
