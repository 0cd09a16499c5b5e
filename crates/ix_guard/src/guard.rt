//! The guard: which records a put must not write over, and which the collector must spare.
ghost use Rattle.std.specs.Prelude.{◌≡◌, ◌<◌, ◌+◌, Some, None, true, length, map, slice_set, option_map, option_copied, is_some, if◌then◌else◌, IfOk, OnOk, OnErr, IsSome};
ghost use Rattle.std.specs.List.{list_any};
ghost use Rattle.ix_machine.specs.Needs.{option_any};
ghost use Rattle.ix_guard.specs.Guarding.{guarding_nothing, lease_of_names, with_put, lease_of};
ghost use Rattle.ix_guard.specs.Protection.{list_needs, leases_name, has_put, is_needed, is_leased, other_leases, was_put, is_guarded, is_protected};
ghost use Rattle.ix_guard.specs.Protection.{comes_first, IsFirstLoose};

use crate::lease::Lease;
use crate::need_list::NeedList;
use ix_dir::Listed;
use ix_types::{FileName, Memory, Seq};
use std::alloc::Global;
use std::marker::Model;
use std::mem;

/// Leases by lane, and the lists of what must stay: for the visible units, for those before an unsynced change, for the
/// open import, for the current version and for the version that each lane holds.
#[derive(Drop)]
pub struct Guard {
    leases: Vec<Option<Lease>>,
    visible: NeedList,
    unsynced: Option<NeedList>,
    import: Option<NeedList>,
    current: NeedList,
    held: Vec<Option<NeedList>>,
}

impl Model for Guard {
    ghost use Rattle.std.specs.Prelude.{◌≡◌, length};
    ghost use Rattle.ix_guard.specs.Guarding.{Guarding};

    ghost Value = { Guarding };

    ghost view = { λ g. record {
      leases = g.leases.items;
      visible = g.visible;
      unsynced = g.unsynced;
      import = g.import;
      current = g.current;
      held = g.held.items;
    } };

    ghost invariant = { λ g. length g.held.items ≡ length g.leases.items };
}

impl Guard {
    /// A guard of so many lanes that guards nothing.
    pub fn new(alloc: Global, lanes: u32) -> Result<Guard, Memory>
        ensures { IfOk result (λ guard. guard ≡ guarding_nothing lanes) }
    {
        let mut leases = Vec::new(alloc);
        let mut held = Vec::new(alloc);
        for _lane in 0..lanes {
            leases.push(None)?;
            held.push(None)?;
        }
        Ok(Guard {
            leases,
            visible: NeedList::empty(),
            unsynced: None,
            import: None,
            current: NeedList::empty(),
            held,
        })
    }

    /// The lane leases the names, none of them put, in place of an earlier lease.
    pub fn lease(&mut self, alloc: Global, lane: u32, names: &Seq<FileName>) -> Result<(), Memory>
        requires { lane < length self.old.leases }
        ensures leased { OnOk result (self.new ≡ record self.old { leases = slice_set self.old.leases lane (Some (lease_of_names names.now)) }) }
        ensures same { OnErr result (self.new ≡ self.old) }
    {
        let lease = Lease::of(alloc, names)?;
        self.leases[lane as usize] = Some(lease);
        Ok(())
    }

    /// Notes a leased name as put. Takes no memory.
    pub fn note_put(&mut self, lane: u32, name: FileName)
        requires lane { lane < length self.old.leases }
        requires leased { option_any (leases_name name) (lease_of self.old lane) ≡ true }
        ensures { self.new ≡ record self.old { leases = slice_set self.old.leases lane (option_map (with_put name) (lease_of self.old lane)) } }
    {
        note_put(&mut self.leases[lane as usize], name);
    }

    /// The lane leases nothing any more. Takes no memory.
    pub fn drop_lease(&mut self, lane: u32)
        requires { lane < length self.old.leases }
        ensures { self.new ≡ record self.old { leases = slice_set self.old.leases lane None } }
    {
        self.leases[lane as usize] = None;
    }

    /// The lane holds the current version, whose need list is handed in. Takes no memory.
    pub fn hold(&mut self, lane: u32, needs: NeedList)
        requires lane { lane < length self.old.leases }
        requires current { needs ≡ self.old.current }
        ensures { self.new ≡ record self.old { held = slice_set self.old.held lane (Some self.old.current) } }
    {
        self.held[lane as usize] = Some(needs);
    }

    /// The lane holds no version any more. Takes no memory.
    pub fn release(&mut self, lane: u32)
        requires { lane < length self.old.leases }
        ensures { self.new ≡ record self.old { held = slice_set self.old.held lane None } }
    {
        self.held[lane as usize] = None;
    }

    /// The visible units need these records from now on. Where the change of the units is unsynced, what they needed
    /// before it stays too. Takes no memory.
    pub fn set_units(&mut self, needs: NeedList, unsynced: bool)
        ensures { self.new ≡ record self.old { visible = needs; unsynced = (if unsynced then Some self.old.visible else None) } }
    {
        let before = mem::replace(&mut self.visible, needs);
        self.unsynced = if unsynced { Some(before) } else { None };
    }

    /// Forgets what the units before the last change needed, and hands it out. Takes no memory.
    pub fn settled(&mut self) -> Option<NeedList>
        ensures forgets { self.new ≡ record self.old { unsynced = None } }
        ensures before { result ≡ self.old.unsynced }
    {
        mem::replace(&mut self.unsynced, None)
    }

    /// What `settled` handed out stays once more, as where the call that settled the change has failed. Takes no memory.
    pub fn unsettled(&mut self, before: Option<NeedList>)
        ensures { self.new ≡ record self.old { unsynced = before } }
    {
        self.unsynced = before;
    }

    /// An import is open, of units that need these records. Takes no memory.
    pub fn open_import(&mut self, needs: NeedList)
        ensures { self.new ≡ record self.old { import = Some needs } }
    {
        self.import = Some(needs);
    }

    /// No import is open any more. Takes no memory.
    pub fn close_import(&mut self)
        ensures { self.new ≡ record self.old { import = None } }
    {
        self.import = None;
    }

    /// The open import becomes the current version, and the lane holds it; the import's need list is handed in once more.
    /// Takes no memory.
    pub fn install(&mut self, lane: u32, needs: NeedList)
        requires lane { lane < length self.old.leases }
        requires open { self.old.import ≡ Some needs }
        ensures { self.new ≡ record self.old { import = None; current = needs; held = slice_set self.old.held lane (Some needs) } }
    {
        match mem::replace(&mut self.import, None) {
            Some(imported) => self.current = imported,
            None => unreachable!(),
        }
        self.held[lane as usize] = Some(needs);
    }

    /// What the visible units need.
    pub fn visible(&self) -> &NeedList
        ensures { result.now ≡ self.now.visible }
    {
        &self.visible
    }

    /// What the units of the open import need.
    pub fn import(&self) -> Option<&NeedList>
        ensures { option_copied result ≡ self.now.import }
    {
        self.import.as_ref()
    }

    /// What the units of the current version need.
    pub fn current(&self) -> &NeedList
        ensures { result.now ≡ self.now.current }
    {
        &self.current
    }

    /// Whether the lane has a lease. Takes no memory.
    pub fn has_lease(&self, lane: u32) -> bool
        requires { lane < length self.now.leases }
        ensures { result ≡ is_some (lease_of self.now lane) }
    {
        self.leases[lane as usize].is_some()
    }

    /// Whether the lane's lease has the name. Takes no memory.
    pub fn has_leased(&self, lane: u32, name: FileName) -> bool
        requires { lane < length self.now.leases }
        ensures { result ≡ option_any (leases_name name) (lease_of self.now lane) }
    {
        leased_under(&self.leases[lane as usize], name)
    }

    /// Whether the lane must not write over the record of a name: it is needed, another lane leases it, or the lane itself
    /// has put it. A look-up in each list. Takes no memory.
    pub fn protects(&self, lane: u32, name: FileName) -> bool
        requires { lane < length self.now.leases }
        ensures { result ≡ is_guarded self.now lane name }
    {
        self.is_needed(name) || self.is_leased_by_others(lane, name) || self.was_put(lane, name)
    }

    /// The least listed name that is neither needed nor leased; None exactly where there is none. Takes no memory.
    pub fn first_loose(&self, records: &Seq<Listed>) -> Option<FileName>
        ensures { IsFirstLoose self.now (map (λ listed. listed.name) records.now) result }
    {
        let mut first = None;
        for listed in records.as_slice() {
            first = self.lesser(first, listed.name);
        }
        first
    }

    /// Whether a need list has the name.
    fn is_needed(&self, name: FileName) -> bool
        ensures { result ≡ is_needed self.now name }
    {
        self.visible.needs(name)
            || needed_by(&self.unsynced, name)
            || needed_by(&self.import, name)
            || self.current.needs(name)
            || held_by_any(&self.held, name)
    }

    /// Whether another lane leases the name.
    fn is_leased_by_others(&self, lane: u32, name: FileName) -> bool
        requires { lane < length self.now.leases }
        ensures { result ≡ is_leased name (other_leases self.now lane) }
    {
        let lane = lane as usize;
        is_leased(&self.leases[..lane], name) || is_leased(&self.leases[lane + 1..], name)
    }

    /// Whether the record was put under the lane's lease. Takes no memory.
    pub fn was_put(&self, lane: u32, name: FileName) -> bool
        requires { lane < length self.now.leases }
        ensures { result ≡ was_put self.now lane name }
    {
        put_under(&self.leases[lane as usize], name)
    }

    /// Whether the collector must spare the record.
    fn is_protected(&self, name: FileName) -> bool
        ensures { result ≡ is_protected self.now name }
    {
        self.is_needed(name) || is_leased(&self.leases, name)
    }

    /// The least that may go, with one more name listed. A name that isn't less is not looked up.
    fn lesser(&self, first: Option<FileName>, name: FileName) -> Option<FileName>
        ensures { result ≡ (if comes_first self.now name first then Some name else first) }
    {
        match first {
            None => {
                if self.is_protected(name) {
                    None
                } else {
                    Some(name)
                }
            }
            Some(first) => {
                if name < first && !self.is_protected(name) {
                    Some(name)
                } else {
                    Some(first)
                }
            }
        }
    }
}

/// Whether there is a need list, and it has the name.
fn needed_by(needs: &Option<NeedList>, name: FileName) -> bool
    ensures { result ≡ option_any (list_needs name) needs.now }
{
    match needs {
        None => false,
        Some(needs) => needs.needs(name),
    }
}

/// Whether the need list of a version that a lane holds has the name.
fn held_by_any(held: &[Option<NeedList>], name: FileName) -> bool
    ensures { result ≡ list_any (option_any (list_needs name)) held.now }
{
    held.iter().any(|needs| needed_by(needs, name))
}

/// Whether one of the leases has the name.
fn is_leased(leases: &[Option<Lease>], name: FileName) -> bool
    ensures { result ≡ is_leased name leases.now }
{
    leases.iter().any(|lease| leased_under(lease, name))
}

/// Whether there is a lease, and it has the name.
fn leased_under(lease: &Option<Lease>, name: FileName) -> bool
    ensures { result ≡ option_any (leases_name name) lease.now }
{
    match lease {
        None => false,
        Some(lease) => lease.has(name),
    }
}

/// Whether there is a lease, and the name was put under it.
fn put_under(lease: &Option<Lease>, name: FileName) -> bool
    ensures { result ≡ option_any (has_put name) lease.now }
{
    match lease {
        None => false,
        Some(lease) => lease.has_put(name),
    }
}

/// Notes a name as put, where there is a lease.
fn note_put(lease: &mut Option<Lease>, name: FileName)
    requires { option_any (leases_name name) lease.old ≡ true }
    ensures { lease.new ≡ option_map (with_put name) lease.old }
{
    if let Some(lease) = lease {
        lease.note_put(name);
    }
}
