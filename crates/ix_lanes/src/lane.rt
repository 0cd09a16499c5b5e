//! A lane's progress: what it does next, and what its asks answered.
ghost use Rattle.std.specs.Prelude.{◌≡◌, ◌≢◌, ◌<◌, ◌≤◌, ℕ, List, [], true, None, Some, slice_get, IfOk, IfSome, OnOk};
ghost use Rattle.std.specs.List.{AllByRecursion};
ghost use Rattle.std.specs.Option.{option_map};
ghost use Rattle.ix_record.specs.declared.value.RecordValue.{RecordValue};
ghost use Rattle.ix_lookups.specs.Loaded.{body_named};
ghost use Rattle.ix_jobs.specs.Made.{shown};
ghost use Rattle.ix_machine.specs.declared.event.Outcome.{Outcome};
ghost use Rattle.ix_lanes.specs.Calls.{next_turn, task_turn, build_turn, put_or_stage, poll_turn};
ghost use Rattle.ix_lanes.specs.Progress as progress;
ghost use Rattle.ix_lanes.specs.Progress.{begun, over, taken_up, let_go, with_loaded, is_asking, build_on, put_on, build_goes_on, goes_on, scanned, imported, poll_told, adopted, ask_told};
ghost use Rattle.ix_lanes.specs.Rules.{IsReady, IsCounted, CountsOn};
ghost use Rattle.ix_lanes.specs.Tasks.{tasks_of};
ghost use Rattle.ix_lanes.specs.TurnView.{turn_of};
ghost use Rattle.ix_lanes.specs.Views.{shown_task, rising_names};

use crate::agenda::Agenda;
use crate::answered::{Answered, AskResult};
use crate::doing::{Doing, Kind};
use crate::results::Results;
use crate::task::{Task, tasks_of};
use crate::turn::Turn;
use ix_jobs::JobPlan;
use ix_lookups::Bodies;
use ix_machine::Outcome;
use ix_plan::Step;
use ix_record::RecordValue;
use ix_types::{FileName, Memory, Naming, Seq};
use std::alloc::Global;
use std::marker::Model;
use std::sync::Arc;

/// How far a lane is. It keeps the tasks that its steps ask for, the mark of the version that it holds, the bodies of the records that its
/// asks loaded since it took that version up, and the results of its asks.
#[derive(Debug, Drop)]
pub struct Lane {
    alloc: Global,
    agenda: Agenda,
    doing: Doing,
    held: Option<u64>,
    bodies: Bodies,
    results: Results,
}

impl Model for Lane {
    ghost use Rattle.std.specs.Prelude.{◌≤◌, length};
    ghost use Rattle.ix_lanes.specs.Views.{Under, rising_names};

    ghost Value = { Under };

    ghost view = { λ l. record {
      progress = record { tasks = l.agenda; doing = l.doing; held = l.held; loaded = rising_names l.bodies; answers = l.results.answers };
      bodies = l.bodies;
    } };

    ghost invariant = { λ l. length l.agenda ≤ l.results.room };
}

impl Lane {
    /// A lane before its first call. It takes the memory for all that the lane's calls are given, and for the results of its asks.
    pub fn new<N: Naming>(alloc: Global, steps: &Seq<Step>, naming: &N) -> Result<Lane, Memory>
        requires { AllByRecursion IsReady steps.now }
        ensures { IfOk result (λ lane. lane.progress ≡ begun (tasks_of N.name_of steps.now)) }
    {
        let tasks = tasks_of(alloc, steps.as_slice(), naming)?;
        let results = Results::new(alloc, tasks.len())?;
        Ok(Lane {
            alloc,
            agenda: Agenda::new(tasks),
            doing: Doing::Begun,
            held: None,
            bodies: Bodies::new(alloc),
            results,
        })
    }

    /// What the lane does next; None where no step is left. Takes no memory.
    pub fn next(&self) -> Option<Turn<'_>>
        ensures { option_map turn_of result ≡ next_turn self.now.progress }
    {
        match self.agenda.first() {
            None => None,
            Some(task) => Some(turn_of(task, self.doing)),
        }
    }

    /// The mark of the version that the lane holds.
    pub fn held(&self) -> Option<u64>
        ensures { result ≡ self.now.progress.held }
    {
        self.held
    }

    /// The records that the lane's asks loaded since it took its version up.
    pub fn bodies(&self) -> &Bodies
        ensures bodies { result.now ≡ self.now.bodies }
        ensures names { self.now.progress.loaded ≡ rising_names self.now.bodies }
    {
        &self.bodies
    }

    /// The results of the lane's asks so far, in order.
    pub fn answers(&self) -> &[Answered]
        ensures { result.now ≡ self.now.progress.answers }
    {
        self.results.answers()
    }

    /// The results of the lane's asks, in order. Takes no memory.
    pub fn into_answers(self) -> Seq<Answered>
        ensures { result ≡ self.progress.answers }
    {
        let Lane {
            alloc: _,
            agenda: _,
            doing: _,
            held: _,
            bodies: _,
            results,
        } = self;
        results.into_answers()
    }

    /// Makes room for one more loaded record, and changes nothing else.
    pub fn reserve(&mut self) -> Result<(), Memory>
        ensures progress { self.new.progress ≡ self.old.progress }
        ensures bodies { self.new.bodies.entries ≡ self.old.bodies.entries }
        ensures room { OnOk result (0 < self.new.bodies.room) }
    {
        self.bodies.reserve()
    }

    /// An ask's load gave this record. Takes no memory.
    pub fn loaded(&mut self, name: FileName, body: Arc<RecordValue>)
        requires { 0 < self.old.bodies.room }
        ensures progress { self.new.progress ≡ with_loaded name self.old.progress }
        ensures added { body_named name self.new.bodies ≡ Some body.value }
        ensures others { (other : List ℕ) → other ≢ name → body_named other self.new.bodies ≡ body_named other self.old.bodies }
    {
        ix_model::laws::answers_are_sorted_sets();
        ix_model::laws::the_sorted_set_is_one();
        ix_lookups::laws::loaded_names_have_bodies();
        self.bodies.add(name, body);
    }

    /// Whether one more file or record can be counted: fewer than the greatest u64 were put or loaded so far.
    pub fn counts_on(&self) -> bool
        ensures { result ≡ true → (outcome : Outcome) → IsCounted (progress.told outcome self.now.progress).doing }
    {
        can_count(self.doing)
    }

    /// How the call ended that the lane made. That an ask's load gave its record is told by `loaded`. Takes no memory.
    pub fn told(&mut self, outcome: Outcome)
        requires { IsCounted (progress.told outcome self.old.progress).doing }
        ensures progress { self.new.progress ≡ progress.told outcome self.old.progress }
        ensures bodies { (name : List ℕ) (body : RecordValue) → body_named name self.new.bodies ≡ Some body → body_named name self.old.bodies ≡ Some body }
    {
        match self.agenda.kind() {
            Kind::Ended => {}
            Kind::Build => self.build_told(outcome),
            Kind::Remove => self.end_task(),
            Kind::Poll => self.poll_told(outcome),
            Kind::Refresh => self.refresh_told(outcome),
            Kind::Ask => self.ask_told(outcome),
            Kind::Release => self.release_told(),
            Kind::Collect => self.end_task(),
        }
    }

    /// The open ask has its result. Takes no memory.
    pub fn answered(&mut self, ended: AskResult)
        requires { is_asking self.old.progress ≡ true }
        ensures progress { self.new.progress ≡ progress.answered ended self.old.progress }
        ensures bodies { self.new.bodies ≡ self.old.bodies }
    {
        let answer = Answered {
            mark: self.held,
            result: ended,
        };
        self.agenda.advance();
        self.doing = Doing::Begun;
        self.results.add(answer);
    }
}

impl Lane {
    /// The task under way is over.
    fn end_task(&mut self)
        ensures progress { self.new.progress ≡ over self.old.progress }
        ensures bodies { self.new.bodies ≡ self.old.bodies }
    {
        self.agenda.advance();
        self.doing = Doing::Begun;
    }

    /// The task goes on from there, or it is over.
    fn go_on(&mut self, doing: Option<Doing>)
        ensures progress { self.new.progress ≡ goes_on doing self.old.progress }
        ensures bodies { self.new.bodies ≡ self.old.bodies }
    {
        match doing {
            Some(doing) => self.doing = doing,
            None => self.end_task(),
        }
    }

    /// The lane holds the version of the mark, or none, and no record is loaded for it.
    fn hold(&mut self, mark: Option<u64>)
        ensures progress { self.new.progress ≡ record self.old.progress { held = mark; loaded = [] } }
        ensures bodies { self.new.bodies.entries ≡ [] }
    {
        self.held = mark;
        self.bodies = Bodies::new(self.alloc);
    }

    /// How a call of a build ended.
    fn build_told(&mut self, outcome: Outcome)
        requires { IfSome (build_goes_on outcome self.old.progress.doing) IsCounted }
        ensures progress { self.new.progress ≡ goes_on (build_goes_on outcome self.old.progress.doing) self.old.progress }
        ensures bodies { self.new.bodies ≡ self.old.bodies }
    {
        self.go_on(build_goes_on(outcome, self.doing));
    }

    /// How a call of a poll ended.
    fn poll_told(&mut self, outcome: Outcome)
        requires { IsCounted (poll_told outcome self.old.progress).doing }
        ensures progress { self.new.progress ≡ poll_told outcome self.old.progress }
        ensures bodies { (name : List ℕ) (body : RecordValue) → body_named name self.new.bodies ≡ Some body → body_named name self.old.bodies ≡ Some body }
    {
        match outcome {
            Outcome::Done => self.import_loaded(),
            Outcome::At { mark } => self.marked(mark),
            Outcome::Written => self.end_task(),
            Outcome::Shared => self.end_task(),
            Outcome::Clash => self.end_task(),
            Outcome::Synced => self.end_task(),
            Outcome::Unsynced => self.end_task(),
            Outcome::NoUnit => self.end_task(),
            Outcome::Removed { .. } => self.end_task(),
            Outcome::Nothing => self.end_task(),
            Outcome::Fault => self.end_task(),
            Outcome::Lost { .. } => self.end_task(),
            Outcome::Damaged { .. } => self.end_task(),
        }
    }

    /// One record more was loaded for the import.
    fn import_loaded(&mut self)
        requires { IsCounted (imported self.old.progress.doing self.old.progress).doing }
        ensures progress { self.new.progress ≡ imported self.old.progress.doing self.old.progress }
        ensures bodies { self.new.bodies ≡ self.old.bodies }
    {
        match self.doing {
            Doing::Importing { mark, records } => {
                self.doing = Doing::Importing {
                    mark,
                    records: records + 1,
                };
            }
            Doing::Begun => self.end_task(),
            Doing::Putting { .. } => self.end_task(),
            Doing::Staged => self.end_task(),
        }
    }

    /// A scan or an install of the poll ended at the mark.
    fn marked(&mut self, mark: u64)
        ensures progress { self.new.progress ≡ scanned mark self.old.progress.doing self.old.progress }
        ensures bodies { (name : List ℕ) (body : RecordValue) → body_named name self.new.bodies ≡ Some body → body_named name self.old.bodies ≡ Some body }
    {
        match self.doing {
            Doing::Begun => self.doing = Doing::Importing { mark, records: 0 },
            Doing::Importing { .. } => self.take_up(mark),
            Doing::Putting { .. } => self.end_task(),
            Doing::Staged => self.end_task(),
        }
    }

    /// The lane holds the version of the mark from now on, and its task is over.
    fn take_up(&mut self, mark: u64)
        ensures progress { self.new.progress ≡ over (taken_up mark self.old.progress) }
        ensures bodies { (name : List ℕ) (body : RecordValue) → body_named name self.new.bodies ≡ Some body → body_named name self.old.bodies ≡ Some body }
    {
        self.hold(Some(mark));
        self.end_task();
    }

    /// How an adoption ended.
    fn refresh_told(&mut self, outcome: Outcome)
        ensures progress { self.new.progress ≡ over (adopted outcome self.old.progress) }
        ensures bodies { (name : List ℕ) (body : RecordValue) → body_named name self.new.bodies ≡ Some body → body_named name self.old.bodies ≡ Some body }
    {
        match outcome {
            Outcome::At { mark } => self.take_up(mark),
            Outcome::Done => self.end_task(),
            Outcome::Written => self.end_task(),
            Outcome::Shared => self.end_task(),
            Outcome::Clash => self.end_task(),
            Outcome::Synced => self.end_task(),
            Outcome::Unsynced => self.end_task(),
            Outcome::NoUnit => self.end_task(),
            Outcome::Removed { .. } => self.end_task(),
            Outcome::Nothing => self.end_task(),
            Outcome::Fault => self.end_task(),
            Outcome::Lost { .. } => self.end_task(),
            Outcome::Damaged { .. } => self.end_task(),
        }
    }

    /// The lane holds nothing from now on, and its task is over.
    fn release_told(&mut self)
        ensures progress { self.new.progress ≡ over (let_go self.old.progress) }
        ensures bodies { (name : List ℕ) (body : RecordValue) → body_named name self.new.bodies ≡ Some body → body_named name self.old.bodies ≡ Some body }
    {
        self.hold(None);
        self.end_task();
    }

    /// How a load of the open ask ended, where it gave no record.
    fn ask_told(&mut self, outcome: Outcome)
        requires { is_asking self.old.progress ≡ true }
        ensures progress { self.new.progress ≡ ask_told outcome self.old.progress }
        ensures bodies { self.new.bodies ≡ self.old.bodies }
    {
        match outcome {
            Outcome::Fault => self.answered(AskResult::Fault),
            Outcome::Lost { .. } => self.answered(AskResult::Lost),
            Outcome::Damaged { .. } => self.answered(AskResult::Damaged),
            Outcome::Done => {}
            Outcome::Written => {}
            Outcome::Shared => {}
            Outcome::Clash => {}
            Outcome::Synced => {}
            Outcome::Unsynced => {}
            Outcome::NoUnit => {}
            Outcome::At { .. } => {}
            Outcome::Removed { .. } => {}
            Outcome::Nothing => {}
        }
    }
}

/// Whether one more can be counted.
fn can_count(doing: Doing) -> bool
    ensures { result ≡ true → CountsOn doing }
{
    match doing {
        Doing::Putting { files } => files < u64::MAX,
        Doing::Importing { records, .. } => records < u64::MAX,
        Doing::Begun => true,
        Doing::Staged => true,
    }
}

/// How far a build is after a call that ended so; None where it is over.
fn build_goes_on(outcome: Outcome, doing: Doing) -> Option<Doing>
    requires { IfSome (build_goes_on outcome doing) IsCounted }
    ensures { result ≡ build_goes_on outcome doing }
{
    match outcome {
        Outcome::Done => build_on(doing),
        Outcome::Written => put_on(doing),
        Outcome::Shared => put_on(doing),
        Outcome::Clash => None,
        Outcome::Synced => None,
        Outcome::Unsynced => None,
        Outcome::NoUnit => None,
        Outcome::At { .. } => None,
        Outcome::Removed { .. } => None,
        Outcome::Nothing => None,
        Outcome::Fault => None,
        Outcome::Lost { .. } => None,
        Outcome::Damaged { .. } => None,
    }
}

/// Behind a lease the files are put, and behind the staging the unit is published.
fn build_on(doing: Doing) -> Option<Doing>
    ensures { result ≡ build_on doing }
{
    match doing {
        Doing::Begun => Some(Doing::Putting { files: 0 }),
        Doing::Putting { .. } => Some(Doing::Staged),
        Doing::Staged => None,
        Doing::Importing { .. } => None,
    }
}

/// One file more was put.
fn put_on(doing: Doing) -> Option<Doing>
    requires { IfSome (put_on doing) IsCounted }
    ensures { result ≡ put_on doing }
{
    match doing {
        Doing::Putting { files } => Some(Doing::Putting { files: files + 1 }),
        Doing::Begun => None,
        Doing::Staged => None,
        Doing::Importing { .. } => None,
    }
}

/// What a task asks for next.
fn turn_of(task: &Task, doing: Doing) -> Turn<'_>
    ensures { turn_of result ≡ task_turn doing (shown_task task.now) }
{
    match task {
        Task::Build(job) => build_turn(job, doing),
        Task::Remove(output) => Turn::Remove(output),
        Task::Poll => poll_turn(doing),
        Task::Refresh => Turn::Adopt,
        Task::Ask(query) => Turn::Ask(query),
        Task::Release => Turn::Release,
        Task::Collect => Turn::Collect,
    }
}

/// What a build does next.
fn build_turn(job: &JobPlan, doing: Doing) -> Turn<'_>
    ensures { turn_of result ≡ build_turn (shown job.now) doing }
{
    match doing {
        Doing::Begun => Turn::Lease(&job.names),
        Doing::Putting { files } => put_or_stage(job, files),
        Doing::Staged => Turn::Publish,
        Doing::Importing { .. } => Turn::Publish,
    }
}

/// The file at a place is put, or behind the last one the unit is staged.
fn put_or_stage(job: &JobPlan, files: u64) -> Turn<'_>
    ensures { turn_of result ≡ put_or_stage (shown job.now) (slice_get job.now.bodies files) }
{
    match job.bodies.as_slice().get(files as usize) {
        Some(body) => Turn::Put(body),
        None => Turn::Stage(&job.unit),
    }
}

/// What a poll does next.
fn poll_turn<'a>(doing: Doing) -> Turn<'a>
    ensures { turn_of result ≡ poll_turn doing }
{
    match doing {
        Doing::Begun => Turn::Scan,
        Doing::Putting { .. } => Turn::Scan,
        Doing::Staged => Turn::Scan,
        Doing::Importing { .. } => Turn::Import,
    }
}
