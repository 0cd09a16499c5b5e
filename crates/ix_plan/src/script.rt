//! Reading a script from JSON.
ghost use Rattle.std.specs.Prelude.{◌≡◌, [], ◌<◌, ◌≤◌, length, codes, IfOk, IfSome, Ok, Err};
ghost use Rattle.ix_plan.specs.View.{view};
ghost use Rattle.ix_plan.specs.Read.{Gives};
ghost use Rattle.ix_plan.specs.Json.{field, field_or};
ghost use Rattle.ix_plan.specs.Values.{number_of};
ghost use Rattle.ix_plan.specs.Reading.{format_of, fields_of, polls, is_poll, second_poller, one_poller, lane_number_of, lanes_of, order_of, script_of, script_of_json};
ghost use Rattle.ix_plan.specs.Keeps.{IsAccepted};

use crate::fields::{Item, list, list_or_none};
use crate::objects::{bad_value, member, value, with_fields, within};
use crate::plan::{Script, Step};
use crate::refusal::{ScriptError, ScriptRefusal, What};
use crate::units::Setting;
use crate::value::Value;
use crate::values::number;
use crate::words::Words;
use ix_types::{Format, Seq};
use json::Scratch;
use std::alloc::Global;

/// The most lanes of a script.
const MAX_LANES: usize = 16;

/// The most numbers of an order.
const MAX_ORDER: usize = 65_536;

/// The format of a script: the number 1 or 2.
fn format(alloc: Global, value: &Value<'_>) -> Result<Format, ScriptError>
    ensures { Gives result (format_of (view value.now)) }
{
    let number = number(alloc, value)?;
    if number == 1 {
        return Ok(Format::One);
    }
    if number == 2 {
        return Ok(Format::Two);
    }
    bad_value(alloc)
}

fn format_field(alloc: Global, value: &Value<'_>) -> Result<Format, ScriptError>
    ensures { Gives result (field (codes "format") format_of (view value.now)) }
{
    let found = member(alloc, value, "format")?;
    within(alloc, "format", format(alloc, found))
}

/// How many lanes a script has.
#[derive(Drop)]
struct LaneCount {
    lanes: u32,
}

impl Item<LaneCount> for u32 {
    ghost use Rattle.ix_plan.specs.Reading.{lane_number_of};

    ghost of = { λ count. lane_number_of count.lanes };

    fn read(alloc: Global, count: &LaneCount, value: &Value<'_>) -> Result<u32, ScriptError> {
        let number = number(alloc, value)?;
        if number < u64::from(count.lanes) {
            Ok(number as u32)
        } else {
            bad_value(alloc)
        }
    }
}

/// The order of a script, none where it is absent.
#[tactic(auto, unfolding(crate::specs::Reading::order_of))]
fn order_or_none(
    alloc: Global,
    lanes: &[Seq<Step>],
    value: &Value<'_>,
) -> Result<Seq<u32>, ScriptError>
    requires { length lanes.now ≤ 16 }
    ensures { Gives result (field_or [] (codes "order") (order_of (length lanes.now)) (view value.now)) }
{
    let count = LaneCount {
        lanes: lanes.len() as u32,
    };
    list_or_none(alloc, &count, value, "order", What::Order, MAX_ORDER)
}

#[tactic(auto, unfolding(crate::specs::Reading::lanes_of))]
fn lanes_field(
    alloc: Global,
    setting: &Setting,
    value: &Value<'_>,
) -> Result<Seq<Seq<Step>>, ScriptError>
    ensures { Gives result (field (codes "lanes") (lanes_of setting.now.format) (view value.now)) }
{
    let found = member(alloc, value, "lanes")?;
    within(
        alloc,
        "lanes",
        list(alloc, setting, found, What::Lanes, MAX_LANES),
    )
}

/// The lanes of a script, at most 16.
fn lanes(alloc: Global, setting: &Setting, value: &Value<'_>) -> Result<Seq<Seq<Step>>, ScriptError>
    ensures lanes { Gives result (field (codes "lanes") (lanes_of setting.now.format) (view value.now)) }
    ensures few { IfOk result (λ lanes. length lanes ≤ 16) }
{
    match lanes_field(alloc, setting, value) {
        Ok(lanes) => Ok(lanes),
        Err(error) => Err(error),
    }
}

/// The lanes and the order of a script.
#[tactic(auto, unfolding(crate::specs::Reading::fields_of))]
fn fields(alloc: Global, value: &Value<'_>) -> Result<Script, ScriptError>
    ensures fields { Gives result (fields_of (view value.now)) }
    ensures few { IfOk result (λ script. length script.lanes ≤ 16) }
{
    with_fields(alloc, value, &["format", "lanes", "order"])?;
    let format = format_field(alloc, value)?;
    let setting = Setting {
        words: Words::new(),
        format,
    };
    let lanes = lanes(alloc, &setting, value)?;
    let order = order_or_none(alloc, lanes.as_slice(), value)?;
    Ok(Script { lanes, order })
}

/// Whether a lane has a poll.
fn polls(lane: &[Step]) -> bool
    ensures { result ≡ polls lane.now }
{
    lane.iter().any(|step| matches!(step, Step::Poll))
}

/// The number of the second lane that has a poll.
fn second_poller(lanes: &[Seq<Step>]) -> Option<usize>
    ensures found { result ≡ second_poller 0 lanes.now }
    ensures within { IfSome result (λ lane. lane < length lanes.now) }
{
    let mut one_polls = false;
    for (index, lane) in lanes.iter().enumerate() {
        if polls(lane.as_slice()) {
            if one_polls {
                return Some(index);
            }
            one_polls = true;
        }
    }
    None
}

#[tactic(auto, unfolding(crate::specs::Reading::one_poller))]
fn one_poller(script: Script) -> Result<Script, ScriptError>
    requires { length script.lanes ≤ 16 }
    ensures { Gives result (one_poller script) }
{
    match second_poller(script.lanes.as_slice()) {
        None => Ok(script),
        Some(lane) => Err(ScriptError::Refused(ScriptRefusal::TwoPollers { lane: lane as u32 })),
    }
}

/// The script of a JSON value.
fn script(alloc: Global, value: &Value<'_>) -> Result<Script, ScriptError>
    ensures { Gives result (script_of_json (view value.now)) }
{
    let script = fields(alloc, value)?;
    one_poller(script)
}

impl Script {
    /// The script that the bytes spell, or the first refusal in reading order.
    pub fn read(alloc: Global, bytes: &[u8]) -> Result<Script, ScriptError>
        ensures accepted { IfOk result (λ script. script_of bytes.now ≡ Ok script) }
        ensures refused { (r : ScriptRefusal) → result ≡ Err (ScriptError.Refused r) → script_of bytes.now ≡ Err r }
        ensures kept { IfOk result IsAccepted }
    {
        let mut scratch = Scratch::new(alloc);
        let value = value(alloc, bytes, &mut scratch)?;
        script(alloc, &value)
    }
}
