//! A lane with the version that it holds, and its open ask.
ghost use Rattle.std.specs.Prelude.{◌≡◌, ◌<◌, ℕ, List, Option, true, false, None, Some, IfOk, OnOk, IfSome, is_some};
ghost use Rattle.std.specs.Option.{option_map};
ghost use Rattle.ix_record.specs.declared.value.RecordValue.{RecordValue};
ghost use Rattle.ix_model.specs.Units.{Units};
ghost use Rattle.ix_held.specs.declared.asks.Next.{Next};
ghost use Rattle.ix_lookups.specs.Loaded.{body_named};
ghost use Rattle.ix_machine.specs.declared.event.Outcome.{Outcome};
ghost use Rattle.ix_lanes.specs.Calls.{next_turn};
ghost use Rattle.ix_lanes.specs.Progress as progress;
ghost use Rattle.ix_lanes.specs.Progress.{Progress, is_asking, settled, with_loaded};
ghost use Rattle.ix_lanes.specs.Rules.{IsCounted};
ghost use Rattle.ix_lanes.specs.Tasks.{Task};
ghost use Rattle.ix_lanes.specs.TurnView.{turn_of};
ghost use Rattle.ix_lanes.specs.Views.{rising_names};
ghost use Rattle.ix_seats.specs.Coming.{IsSafeComing, lacking_in, followed, progress_in};
ghost use Rattle.ix_seats.specs.Made.{after, IsGiven};
ghost use Rattle.ix_seats.specs.Seats.{AreLeft, IsSeat, lacks, GoesOn, IsLacking};

use crate::coming::{asked, coming};
use crate::made::Made;
use ix_asking::OpenAsk;
use ix_held::Next;
use ix_lanes::{Answered, AskResult, Lane, Turn};
use ix_machine::Outcome;
use ix_record::RecordValue;
use ix_tables::Version;
use ix_types::{FileName, Memory, Seq};
use std::alloc::Global;
use std::marker::Model;
use std::sync::Arc;

/// A lane, the version that it holds, and its open ask.
#[derive(Drop)]
pub struct Seat {
    lane: Lane,
    version: Option<Arc<Version>>,
    ask: Option<OpenAsk>,
}

impl Model for Seat {
    ghost use Rattle.std.specs.Prelude.{option_map};
    ghost use Rattle.ix_seats.specs.Seated.{Seated, HasAsk};

    ghost Value = { Seated };

    ghost view = { λ seat. record { lane = seat.lane; version = option_map (λ version. version.value) seat.version; ask = seat.ask } };

    ghost invariant = { λ seat. HasAsk seat.lane.progress seat.lane.bodies seat.ask };
}

impl Seat {
    /// A lane that holds nothing yet.
    pub fn of(lane: Lane) -> Seat
        ensures lane { result.lane ≡ lane }
        ensures seat { (seen : ℕ → Units) → lane.progress.held ≡ None → IsSeat seen result }
    {
        Seat {
            lane,
            version: None,
            ask: None,
        }
    }

    /// The lane.
    pub fn lane(&self) -> &Lane
        ensures { result.now ≡ self.now.lane }
    {
        &self.lane
    }

    /// What the lane does next; None where no step is left. Takes no memory.
    pub fn next(&self) -> Option<Turn<'_>>
        ensures { option_map turn_of result ≡ next_turn self.now.lane.progress }
    {
        self.lane.next()
    }

    /// Answers the asks in front that lack no record, and gives the record that the next one lacks. None where no ask is under way. After want of memory it may be
    /// called again.
    pub fn settle(&mut self, alloc: Global) -> Result<Option<FileName>, Memory>
        ensures settled { (seen : ℕ → Units) → IsSeat seen self.old → IfOk result (λ lacking. self.new.lane.progress ≡ settled seen self.old.lane.progress) }
        ensures lacking { (seen : ℕ → Units) → IsSeat seen self.old → IfOk result (λ lacking. lacking ≡ lacks seen self.new.lane.progress) }
        ensures asking { IfOk result (λ lacking. is_some lacking ≡ is_asking self.new.lane.progress) }
        ensures seat { (seen : ℕ → Units) → IsSeat seen self.old → IsSeat seen self.new }
        ensures same { (seen : ℕ → Units) → IsSeat seen self.old → settled seen self.new.lane.progress ≡ settled seen self.old.lane.progress }
        ensures left { AreLeft self.old.lane.progress.tasks self.new.lane.progress.tasks }
    {
        tasks_are_left();
        while self.is_asking() {
            let lacking = self.answer(alloc)?;
            if lacking.is_some() {
                return Ok(lacking);
            }
        }
        Ok(None)
    }

    /// Makes room for one more loaded record, and changes nothing else. Answers Memory where memory is wanting, or where no more files or records can be counted.
    pub fn reserve(&mut self) -> Result<(), Memory>
        ensures progress { self.new.lane.progress ≡ self.old.lane.progress }
        ensures seat { (seen : ℕ → Units) → IsSeat seen self.old → IsSeat seen self.new }
        ensures room { OnOk result (0 < self.new.lane.bodies.room) }
        ensures counted { OnOk result ((outcome : Outcome) → IsCounted (progress.told outcome self.new.lane.progress).doing) }
    {
        if !self.lane.counts_on() {
            return Err(Memory);
        }
        self.make_room()
    }

    /// Tells the lane how its call ended, and what it gave. Takes no memory.
    pub fn tell(&mut self, made: Made)
        requires room { 0 < self.old.lane.bodies.room }
        requires counted { (outcome : Outcome) → IsCounted (progress.told outcome self.old.lane.progress).doing }
        ensures progress { self.new.lane.progress ≡ after made self.old.lane.progress }
        ensures seat { (seen : ℕ → Units) → IsSeat seen self.old → IsGiven seen self.old.lane.progress made → IsSeat seen self.new }
    {
        match made {
            Made::Ended(outcome) => self.end(outcome),
            Made::Loaded(name, body) => self.load(name, body),
            Made::TakenUp(outcome, version) => self.take_up(outcome, version),
            Made::LetGo(outcome) => self.let_go(outcome),
        }
    }

    /// The results of the lane's asks, in order. Takes no memory.
    pub fn into_answers(self) -> Seq<Answered>
        ensures { result ≡ self.lane.progress.answers }
    {
        let Seat {
            lane,
            version: _,
            ask: _,
        } = self;
        lane.into_answers()
    }
}

impl Seat {
    /// Whether an ask is under way.
    fn is_asking(&self) -> bool
        ensures { result ≡ is_asking self.now.lane.progress }
    {
        asked(&self.lane).is_some()
    }

    /// Answers the ask under way, or gives the record that it lacks.
    fn answer(&mut self, alloc: Global) -> Result<Option<FileName>, Memory>
        requires { is_asking self.old.lane.progress ≡ true }
        ensures settled { (seen : ℕ → Units) → IsSeat seen self.old → settled seen self.new.lane.progress ≡ settled seen self.old.lane.progress }
        ensures lacking { (seen : ℕ → Units) → IsSeat seen self.old → IfOk result (λ lacking. IfSome lacking (IsLacking seen self.new.lane.progress)) }
        ensures seat { (seen : ℕ → Units) → IsSeat seen self.old → IsSeat seen self.new }
        ensures on { IfOk result (GoesOn self.old.lane.progress self.new.lane.progress) }
        ensures left { AreLeft self.old.lane.progress.tasks self.new.lane.progress.tasks }
    {
        tasks_are_left();
        let opened = self.ask.take();
        let next = coming(alloc, &self.lane, &self.version, opened)?;
        Ok(self.follow(next))
    }

    /// The ask under way came to this; None where no version is held.
    fn follow(&mut self, next: Option<Next>) -> Option<FileName>
        requires asking { is_asking self.old.lane.progress ≡ true }
        requires safe { IsSafeComing self.old.lane next }
        requires closed { self.old.ask ≡ None }
        ensures seat { self.new ≡ followed next self.old }
        ensures lacking { result ≡ lacking_in next }
    {
        match next {
            None => {
                self.lane.answered(AskResult::NoneHeld);
                None
            }
            Some(next) => self.go_on(next),
        }
    }

    /// The ask under way came to this.
    fn go_on(&mut self, next: Next) -> Option<FileName>
        requires asking { is_asking self.old.lane.progress ≡ true }
        requires safe { IsSafeComing self.old.lane (Some next) }
        requires closed { self.old.ask ≡ None }
        ensures seat { self.new ≡ followed (Some next) self.old }
        ensures lacking { result ≡ lacking_in (Some next) }
    {
        match next {
            Next::Rows(rows) => {
                self.lane.answered(AskResult::Rows(rows));
                None
            }
            Next::Lacks(name, opened) => {
                self.ask = Some(opened);
                Some(name)
            }
        }
    }

    /// Makes room for one more loaded record, and changes nothing else.
    fn make_room(&mut self) -> Result<(), Memory>
        ensures progress { self.new.lane.progress ≡ self.old.lane.progress }
        ensures seat { (seen : ℕ → Units) → IsSeat seen self.old → IsSeat seen self.new }
        ensures room { OnOk result (0 < self.new.lane.bodies.room) }
    {
        ix_asking::laws::loading_keeps_asks_open();
        self.lane.reserve()
    }

    /// The call ended so, and the lane holds what it held.
    fn end(&mut self, outcome: Outcome)
        requires { IsCounted (progress.told outcome self.old.lane.progress).doing }
        ensures progress { self.new.lane.progress ≡ progress.told outcome self.old.lane.progress }
        ensures bodies { (name : List ℕ) (body : RecordValue) → body_named name self.new.lane.bodies ≡ Some body → body_named name self.old.lane.bodies ≡ Some body }
        ensures names { self.new.lane.progress.loaded ≡ rising_names self.new.lane.bodies }
        ensures version { self.new.version ≡ self.old.version }
        ensures ask { self.new.ask ≡ None }
    {
        self.ask = None;
        self.lane.told(outcome);
        let _bodies = self.lane.bodies();
    }

    /// The call gave a record for the ask under way.
    fn load(&mut self, name: FileName, body: Arc<RecordValue>)
        requires { 0 < self.old.lane.bodies.room }
        ensures progress { self.new.lane.progress ≡ with_loaded name self.old.lane.progress }
        ensures seat { (seen : ℕ → Units) → IsSeat seen self.old → IsGiven seen self.old.lane.progress (Made.Loaded name body) → IsSeat seen self.new }
    {
        ix_asking::laws::loading_keeps_asks_open();
        ix_needs::laws::bodies_of_units_hold();
        self.lane.loaded(name, body);
    }

    /// The call gave a version, which the lane holds from now on.
    fn take_up(&mut self, outcome: Outcome, version: Arc<Version>)
        requires { IsCounted (progress.told outcome self.old.lane.progress).doing }
        ensures progress { self.new.lane.progress ≡ progress.told outcome self.old.lane.progress }
        ensures seat { (seen : ℕ → Units) → IsSeat seen self.old → IsGiven seen self.old.lane.progress (Made.TakenUp outcome version) → IsSeat seen self.new }
    {
        ix_model::laws::answers_are_sorted_sets();
        ix_needs::laws::bodies_of_units_hold();
        self.version = Some(version);
        self.end(outcome);
    }

    /// The lane holds nothing from now on.
    fn let_go(&mut self, outcome: Outcome)
        requires { IsCounted (progress.told outcome self.old.lane.progress).doing }
        ensures progress { self.new.lane.progress ≡ progress.told outcome self.old.lane.progress }
        ensures seat { (seen : ℕ → Units) → IsSeat seen self.old → IsGiven seen self.old.lane.progress (Made.LetGo outcome) → IsSeat seen self.new }
    {
        self.version = None;
        self.end(outcome);
    }
}

/// Tasks of which some in front are over: what an ask comes to leaves such.
fn tasks_are_left()
    ensures all { (tasks : List Task) → AreLeft tasks tasks }
    ensures follow { (next : Option Next) (p : Progress) → AreLeft p.tasks (progress_in next p).tasks }
    ensures more { (before between after : List Task) → AreLeft before between → AreLeft between after → AreLeft before after }
{}
