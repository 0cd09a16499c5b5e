//! Scans, loads, installs, holds and collects.
ghost use Rattle.std.specs.Prelude.{◌≡◌, ◌<◌, length, Some, true, option_map, IfOk, OnOk, OnErr};
ghost use Rattle.ix_machine.specs.declared.event.Call.TheVariants as call;
ghost use Rattle.ix_machine.specs.declared.event.Outcome.TheVariants as outcome;
ghost use Rattle.ix_ledger.specs.Books.{event, logged};
ghost use Rattle.ix_ledger.specs.Effects.{settled, opened, closed, installed, adopted, released, load_failed, IsFailure, IsFailureOf};
ghost use Rattle.ix_ledger.specs.Kept.{held_in};
ghost use Rattle.ix_ledger.specs.Registered.{import_seen, has_opened, IsFirstListed};

use crate::import::Import;
use crate::ledger::Ledger;
use ix_dir::Listed;
use ix_guard::NeedList;
use ix_machine::{Call, Outcome, Purpose};
use ix_types::{FileName, Memory, Seq};

impl Ledger {
    /// The number of publications, which is the mark of the visible units.
    pub fn published(&self) -> u64
        ensures { result ≡ self.now.kept.published }
    {
        self.register.published()
    }

    /// Where the last units change is unsynced: the mark before it.
    pub fn pending(&self) -> Option<u64>
        ensures { result ≡ self.now.kept.pending }
    {
        self.register.pending()
    }

    /// The mark of the current version.
    pub fn current(&self) -> u64
        ensures { result ≡ self.now.kept.current }
    {
        self.register.current()
    }

    /// The open import.
    pub fn import(&self) -> Option<Import>
        ensures { option_map import_seen result ≡ self.now.kept.import }
    {
        self.register.import()
    }

    /// The mark that the lane holds.
    pub fn held(&self, lane: u32) -> Option<u64>
        requires { lane < length self.now.kept.guard.leases }
        ensures { result ≡ held_in self.now.kept lane }
    {
        self.register.held(lane)
    }

    // ---- scans and loads

    /// What the visible units need, for an import that is to be opened.
    pub fn scanning(&self) -> Result<NeedList, Memory>
        ensures { IfOk result (λ needs. needs ≡ self.now.kept.guard.visible) }
    {
        self.register.visible_needs()
    }

    /// An import of the visible units is open, by this lane. An earlier one is closed. Takes no memory.
    pub fn scan_made(&mut self, lane: u32, needs: NeedList)
        requires needs { needs ≡ self.old.kept.guard.visible }
        requires room { self.old.has_room ≡ true }
        ensures { self.new ≡ logged self.old (opened self.old.kept lane) (event lane call.Scan (outcome.At self.old.kept.published)) }
    {
        self.register.open_import(lane, needs);
        let mark = self.register.published();
        self.end(lane, Call::Scan, Outcome::At { mark });
    }

    /// A scan failed so: no import is open any more. Takes no memory.
    pub fn scan_failed(&mut self, lane: u32, outcome: Outcome)
        requires failure { IsFailure outcome }
        requires room { self.old.has_room ≡ true }
        ensures { self.new ≡ logged self.old (closed self.old.kept) (event lane call.Scan outcome) }
    {
        self.register.close_import();
        self.end(lane, Call::Scan, outcome);
    }

    /// A record was loaded. Takes no memory.
    pub fn load_made(&mut self, lane: u32, name: FileName)
        requires { self.old.has_room ≡ true }
        ensures { self.new ≡ logged self.old self.old.kept (event lane (call.Load name) outcome.Done) }
    {
        self.end(lane, Call::Load { name }, Outcome::Done);
    }

    /// A load failed so: for an import, none is open any more. Takes no memory.
    pub fn load_failed(&mut self, lane: u32, name: FileName, purpose: Purpose, outcome: Outcome)
        requires failure { IsFailureOf name outcome }
        requires room { self.old.has_room ≡ true }
        ensures { self.new ≡ logged self.old (load_failed self.old.kept purpose) (event lane (call.Load name) outcome) }
    {
        match purpose {
            Purpose::Import => {
                self.register.close_import();
                self.end(lane, Call::Load { name }, outcome);
            }
            Purpose::Ask => self.end(lane, Call::Load { name }, outcome),
        }
    }

    // ---- versions

    /// The open import becomes the current version, whose mark is answered, and the lane holds it. Where memory is wanting all stays.
    pub fn install(&mut self, lane: u32) -> Result<u64, Memory>
        requires lane { lane < length self.old.kept.guard.leases }
        requires opened { has_opened self.old.kept lane ≡ true }
        ensures installed { IfOk result (λ mark. self.new ≡ logged self.old (installed self.old.kept lane) (event lane call.Install (outcome.At mark))) }
        ensures mark { IfOk result (λ mark. option_map (λ open_import. open_import.mark) self.old.kept.import ≡ Some mark) }
        ensures same { OnErr result (self.new ≡ record self.old { has_room = self.new.has_room }) }
    {
        self.log.reserve()?;
        let needs = self.register.import_needs()?;
        match self.register.import() {
            Some(Import { lane: _, mark }) => {
                self.register.install(lane, needs);
                self.end(lane, Call::Install, Outcome::At { mark });
                Ok(mark)
            }
            None => unreachable!(),
        }
    }

    /// The lane holds the current version, whose mark is answered. Where memory is wanting all stays.
    pub fn adopt(&mut self, lane: u32) -> Result<u64, Memory>
        requires { lane < length self.old.kept.guard.leases }
        ensures adopted { OnOk result (self.new ≡ logged self.old (adopted self.old.kept lane) (event lane call.Adopt (outcome.At self.old.kept.current))) }
        ensures mark { IfOk result (λ mark. mark ≡ self.old.kept.current) }
        ensures same { OnErr result (self.new ≡ record self.old { has_room = self.new.has_room }) }
    {
        self.log.reserve()?;
        let needs = self.register.current_needs().share()?;
        let mark = self.register.current();
        self.register.adopt(lane, needs);
        self.end(lane, Call::Adopt, Outcome::At { mark });
        Ok(mark)
    }

    /// The lane holds nothing any more. Where memory is wanting all stays.
    pub fn release(&mut self, lane: u32) -> Result<(), Memory>
        requires { lane < length self.old.kept.guard.leases }
        ensures released { OnOk result (self.new ≡ logged self.old (released self.old.kept lane) (event lane call.Release outcome.Done)) }
        ensures same { OnErr result (self.new ≡ record self.old { has_room = self.new.has_room }) }
    {
        self.log.reserve()?;
        self.register.release(lane);
        self.end(lane, Call::Release, Outcome::Done);
        Ok(())
    }

    // ---- collects

    /// The least of the listed records that nothing needs or leases once no change pends; None exactly where there is none. Takes no
    /// memory.
    pub fn first_loose(&mut self, records: &Seq<Listed>) -> Option<FileName>
        ensures same { self.new ≡ self.old }
        ensures first { IsFirstListed self.old.kept records.now result }
    {
        self.register.first_loose(records)
    }

    /// No record file is loose. No change pends any more. Takes no memory.
    pub fn collect_nothing(&mut self, lane: u32)
        requires { self.old.has_room ≡ true }
        ensures { self.new ≡ logged self.old (settled self.old.kept) (event lane call.Collect outcome.Nothing) }
    {
        self.register.settle();
        self.end(lane, Call::Collect, Outcome::Nothing);
    }

    /// A loose record file was removed. No change pends any more. Takes no memory.
    pub fn collect_removed(&mut self, lane: u32, name: FileName)
        requires { self.old.has_room ≡ true }
        ensures { self.new ≡ logged self.old (settled self.old.kept) (event lane call.Collect (outcome.Removed name)) }
    {
        self.register.settle();
        self.end(lane, Call::Collect, Outcome::Removed { name });
    }

    /// A collect failed: all stays. Takes no memory.
    pub fn collect_failed(&mut self, lane: u32)
        requires { self.old.has_room ≡ true }
        ensures { self.new ≡ logged self.old self.old.kept (event lane call.Collect outcome.Fault) }
    {
        self.end(lane, Call::Collect, Outcome::Fault);
    }
}
