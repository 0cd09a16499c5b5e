//! What a call may do, as values: the outcome and the change of each of its endings.
ghost use Rattle.std.specs.Prelude.{◌≡◌, IfOk, OnOk, OnErr, if◌then◌else◌, Some, None, option_map};
ghost use Rattle.std.specs.Map.{remove_entry};
ghost use Rattle.std.specs.BTreeMap.{is_at};
ghost use Rattle.ix_types.specs.Row.{text_cmp};
ghost use Rattle.ix_machine.specs.Needs.{settled};
ghost use Rattle.ix_machine.specs.State.{State};
ghost use Rattle.ix_machine.specs.Step.{flagged, sure, may_fault, ended, with_lease, dropped, holding, publishing};
ghost use Rattle.ix_machine.specs.Plain.{publication_of};
ghost use Rattle.ix_machine.specs.PlainState.{state_of, lease_seen};
ghost use Rattle.ix_machine.specs.declared.effects.Effect.TheVariants as Effect;
ghost use Rattle.ix_machine.specs.PlainRows.{applied, misses_of, row_seen, planned_seen};

use crate::event::Outcome;
use crate::parts::{Import, Lease, Parts};
use crate::units::Change;
use ix_types::{FileName, Memory, Seq};

/// What a call changes of the state.
#[derive(Debug, Drop)]
pub enum Effect {
    /// All stays.
    Stays,
    /// The lane's lease becomes this one, or none.
    Leases {
        lane: u32,
        lease: Option<Lease>,
    },
    /// A record file comes, and the lane's lease becomes this one, or none.
    Writes {
        lane: u32,
        lease: Option<Lease>,
        name: FileName,
        bytes: Seq<u8>,
    },
    /// One units change more, with the mark before it where it pends.
    Changes {
        change: Change,
        pending: Option<u64>,
    },
    /// The same, and the lane's lease is dropped.
    Publishes {
        lane: u32,
        change: Change,
        pending: Option<u64>,
    },
    /// The open import becomes this one, or none.
    Imports {
        import: Option<Import>,
    },
    /// The mark becomes the current one, which the lane holds, and no import is open.
    Installs {
        lane: u32,
        mark: u64,
    },
    /// The lane holds this mark, or none.
    Holds {
        lane: u32,
        mark: Option<u64>,
    },
    /// No change pends any more.
    Settles,
    /// No change pends any more, and the record file of the name goes.
    Collects {
        name: FileName,
    },
}

/// Which files a call may find lost or damaged.
#[derive(Clone, Copy, Debug)]
pub enum Misses {
    No,
    Each,
    One { name: FileName },
}

/// All that a call may do in a state.
#[derive(Debug, Drop)]
pub struct Row {
    pub outcome: Outcome,
    pub plain: Effect,
    pub faulted: Option<Effect>,
    pub unsynced: Option<Effect>,
    pub misses: Misses,
}

/// How a call ends, and what it changes.
#[derive(Debug, Drop)]
pub struct Planned {
    pub outcome: Outcome,
    pub effect: Effect,
}

/// A call that can't fail.
pub(crate) fn sure(outcome: Outcome, plain: Effect) -> Row
    ensures { (s : State) → row_seen s result ≡ sure outcome (applied plain s) }
{
    Row {
        outcome,
        plain,
        faulted: None,
        unsynced: None,
        misses: Misses::No,
    }
}

/// A call that may end with a fault.
pub(crate) fn may_fault(outcome: Outcome, plain: Effect, faulted: Effect) -> Row
    ensures { (s : State) → row_seen s result ≡ may_fault outcome (applied plain s) (applied faulted s) }
{
    Row {
        outcome,
        plain,
        faulted: Some(faulted),
        unsynced: None,
        misses: Misses::No,
    }
}

impl Misses {
    /// Whether the file of the name is among them.
    fn has(self, name: FileName) -> bool
        ensures { result ≡ misses_of self name }
    {
        match self {
            Misses::No => false,
            Misses::Each => true,
            Misses::One { name: own } => own == name,
        }
    }
}

/// With the outcome, where there is an effect.
fn ended_with(outcome: Outcome, effect: Option<Effect>) -> Option<Planned>
    ensures { (s : State) → option_map (planned_seen s) result ≡ option_map (λ e. ended outcome (applied e s)) effect }
{
    match effect {
        Some(effect) => Some(Planned { outcome, effect }),
        None => None,
    }
}

/// What the call does with a flag. None where it doesn't allow the flag.
pub(crate) fn flagged(call: Row, flag: Outcome) -> Option<Planned>
    ensures { (s : State) → option_map (planned_seen s) result ≡ flagged (row_seen s call) flag }
{
    match flag {
        Outcome::Done => Some(Planned {
            outcome: call.outcome,
            effect: call.plain,
        }),
        Outcome::Fault => ended_with(flag, call.faulted),
        Outcome::Unsynced => ended_with(flag, call.unsynced),
        Outcome::Lost { name } => missed(call, flag, name),
        Outcome::Damaged { name } => missed(call, flag, name),
        _ => None,
    }
}

/// What the call does where the file of the name is lost or damaged.
fn missed(call: Row, flag: Outcome, name: FileName) -> Option<Planned>
    ensures { (s : State) → option_map (planned_seen s) result
        ≡ (if misses_of call.misses name then option_map (λ e. ended flag (applied e s)) call.faulted else None) }
{
    if call.misses.has(name) {
        ended_with(flag, call.faulted)
    } else {
        None
    }
}

impl Parts {
    /// Makes the changes of a call. Where memory runs out, all is as before.
    pub(crate) fn apply(&mut self, effect: Effect) -> Result<(), Memory>
        ensures made { OnOk result (state_of self.new ≡ applied effect (state_of self.old)) }
        ensures stays { OnErr result (state_of self.new ≡ state_of self.old) }
    {
        match effect {
            Effect::Stays => Ok(()),
            Effect::Leases { lane, lease } => {
                self.set_lease(lane, lease);
                Ok(())
            }
            Effect::Writes {
                lane,
                lease,
                name,
                bytes,
            } => self.write(lane, lease, name, bytes),
            Effect::Changes { change, pending } => self.publish(change, pending),
            Effect::Publishes {
                lane,
                change,
                pending,
            } => self.publish_staged(lane, change, pending),
            Effect::Imports { import } => {
                self.import = import;
                Ok(())
            }
            Effect::Installs { lane, mark } => {
                self.install(lane, mark);
                Ok(())
            }
            Effect::Holds { lane, mark } => {
                self.hold(lane, mark);
                Ok(())
            }
            Effect::Settles => {
                self.pending = None;
                Ok(())
            }
            Effect::Collects { name } => {
                self.collect(&name);
                Ok(())
            }
        }
    }

    /// The mark becomes the current one, which the lane holds, and no import is open.
    fn install(&mut self, lane: u32, mark: u64)
        ensures { state_of self.new ≡ holding (record (state_of self.old) { import = None; current = mark }) lane (Some mark) }
    {
        self.import = None;
        self.current = mark;
        self.hold(lane, Some(mark));
    }

    /// No change pends any more, and the record file of the name goes.
    fn collect(&mut self, name: &FileName)
        ensures { state_of self.new ≡ record (settled (state_of self.old)) { records = remove_entry (is_at (text_cmp name.now)) (state_of self.old).records } }
    {
        self.pending = None;
        self.records.remove(name);
    }

    /// The lane's lease becomes this one, or none.
    fn set_lease(&mut self, lane: u32, lease: Option<Lease>)
        ensures { state_of self.new ≡ with_lease (state_of self.old) lane (option_map lease_seen lease) }
    {
        if (lane as usize) < self.leases.len() {
            self.leases[lane as usize] = lease;
        }
    }

    /// The lane holds this mark, or none.
    fn hold(&mut self, lane: u32, mark: Option<u64>)
        ensures { state_of self.new ≡ holding (state_of self.old) lane mark }
    {
        if (lane as usize) < self.held.len() {
            self.held[lane as usize] = mark;
        }
    }

    /// A record file comes, and the lane's lease becomes this one, or none.
    fn write(
        &mut self,
        lane: u32,
        lease: Option<Lease>,
        name: FileName,
        bytes: Seq<u8>,
    ) -> Result<(), Memory>
        ensures made { OnOk result (state_of self.new ≡ applied (Effect.Writes lane lease name bytes) (state_of self.old)) }
        ensures stays { OnErr result (state_of self.new ≡ state_of self.old) }
    {
        if self.records.insert(name, bytes).is_err() {
            return Err(Memory);
        }
        self.set_lease(lane, lease);
        Ok(())
    }

    /// One units change more.
    fn publish(&mut self, change: Change, pending: Option<u64>) -> Result<(), Memory>
        ensures made { OnOk result (state_of self.new ≡ publishing (state_of self.old) (publication_of change) pending) }
        ensures stays { OnErr result (state_of self.new ≡ state_of self.old) }
    {
        if self.changes.push(change).is_err() {
            return Err(Memory);
        }
        self.pending = pending;
        Ok(())
    }

    /// One units change more, and the lane's lease is dropped.
    fn publish_staged(
        &mut self,
        lane: u32,
        change: Change,
        pending: Option<u64>,
    ) -> Result<(), Memory>
        ensures made { OnOk result (state_of self.new ≡ publishing (dropped (state_of self.old) lane) (publication_of change) pending) }
        ensures stays { OnErr result (state_of self.new ≡ state_of self.old) }
    {
        self.publish(change, pending)?;
        self.set_lease(lane, None);
        Ok(())
    }
}
