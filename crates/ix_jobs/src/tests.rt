//! Jobs of worked scripts: the names of their files and of the bytes of their units, worked out by another program.
ghost use Rattle.std.specs.List.{AllByRecursion};
ghost use Rattle.ix_plan.specs.Keeps.{IsStep};

use super::*;
use ix_plan::{Script, Step};
use ix_types::{Naming, Sha};
use ix_unit::encode;
use std::alloc::Global;
use std::process::Abort;

/// Scripts: the small build; the package of three; a record of format 2; and lists out of order, with repeats and with roles to join.
const SCRIPTS: &str =
    r#"{"format":1,"lanes":[[{"do":"build","unit":{"output":"abc","main":"a.swift","module":"M","records":[{"path":"a.swift","symbols":[{"usr":"s:1MA","name":"A","kind":"Struct"}],"occurrences":[{"usr":"s:1MA","line":1,"col":8,"roles":["Definition"]}]}]}}]]}
{"format":1,"lanes":[[{"do":"build","unit":{"output":"/o/Shape.o","main":"Shape.swift","module":"App","records":[{"path":"Shape.swift","symbols":[{"usr":"s:3App5ShapeC","name":"Shape","kind":"Class"},{"usr":"s:3App5ShapeC4areaSiyF","name":"area()","kind":"InstanceMethod"}],"occurrences":[{"usr":"s:3App5ShapeC","line":1,"col":7,"roles":["Definition"]},{"usr":"s:3App5ShapeC4areaSiyF","line":2,"col":8,"roles":["Definition"],"relations":[{"usr":"s:3App5ShapeC","roles":["ChildOf"]}]}]}]}},{"do":"build","unit":{"output":"/o/Circle.o","main":"Circle.swift","module":"App","units":["/o/Shape.o"],"records":[{"path":"Circle.swift","symbols":[{"usr":"s:3App6CircleC","name":"Circle","kind":"Class"},{"usr":"s:3App6CircleC4areaSiyF","name":"area()","kind":"InstanceMethod"},{"usr":"s:3App5ShapeC","name":"Shape","kind":"Class"},{"usr":"s:3App5ShapeC4areaSiyF","name":"area()","kind":"InstanceMethod"},{"usr":"c:@F@clamp","name":"clamp","kind":"Function","lang":"C"}],"occurrences":[{"usr":"s:3App6CircleC","line":1,"col":7,"roles":["Definition"]},{"usr":"s:3App5ShapeC","line":1,"col":15,"roles":["Reference"],"relations":[{"usr":"s:3App6CircleC","roles":["BaseOf"]}]},{"usr":"s:3App6CircleC4areaSiyF","line":2,"col":17,"roles":["Definition"],"relations":[{"usr":"s:3App6CircleC","roles":["ChildOf"]},{"usr":"s:3App5ShapeC4areaSiyF","roles":["OverrideOf"]}]},{"usr":"c:@F@clamp","line":3,"col":12,"roles":["Reference","Call"],"relations":[{"usr":"s:3App6CircleC4areaSiyF","roles":["CalledBy","ContainedBy"]}]}]},{"path":"util.h","symbols":[{"usr":"c:@F@clamp","name":"clamp","kind":"Function","lang":"C"}],"occurrences":[{"usr":"c:@F@clamp","line":4,"col":5,"roles":["Declaration"]}]}]}},{"do":"build","unit":{"output":"/o/main.o","main":"main.swift","module":"App","units":["/o/Shape.o","/o/Circle.o"],"records":[{"path":"main.swift","symbols":[{"usr":"s:3App4mainyyF","name":"main()","kind":"Function"},{"usr":"s:3App6CircleC","name":"Circle","kind":"Class"},{"usr":"s:3App5ShapeC4areaSiyF","name":"area()","kind":"InstanceMethod"}],"occurrences":[{"usr":"s:3App4mainyyF","line":1,"col":6,"roles":["Definition"]},{"usr":"s:3App6CircleC","line":2,"col":13,"roles":["Reference"],"relations":[{"usr":"s:3App4mainyyF","roles":["ContainedBy"]}]},{"usr":"s:3App5ShapeC4areaSiyF","line":3,"col":9,"roles":["Reference","Call","Dynamic"],"relations":[{"usr":"s:3App4mainyyF","roles":["CalledBy","ContainedBy"]}]}]},{"path":"util.h","symbols":[{"usr":"c:@F@clamp","name":"clamp","kind":"Function","lang":"C"}],"occurrences":[{"usr":"c:@F@clamp","line":4,"col":5,"roles":["Declaration"]}]}]}}]]}
{"format":2,"lanes":[[{"do":"build","unit":{"output":"abc","main":"a.swift","module":"M","records":[{"path":"a.swift","symbols":[{"usr":"s:1MA","name":"A","kind":"Struct","codegen":"$s1MAV"}],"occurrences":[{"usr":"s:1MA","line":1,"col":8,"roles":["Definition"]}]}]}}]]}
{"format":2,"lanes":[[{"do":"build","unit":{"output":"o","module":"m","system":true,"units":["b","a","b"],"files":[{"path":"z"},{"path":"a","system":true},{"path":"z"}],"includes":[{"from":"b","line":2,"to":"c"},{"from":"a","line":10,"to":"c"},{"from":"a","line":9,"to":"d"},{"from":"a","line":9,"to":"d"}],"records":[{"path":"q","system":true,"symbols":[{"usr":"s:b","name":"b","kind":"Class","props":["Local"]},{"usr":"s:a","lang":"C"},{"usr":"s:c","name":"c","codegen":"$c"}],"occurrences":[{"usr":"s:c","line":3,"col":1,"roles":["Call"],"relations":[{"usr":"s:b","roles":["CalledBy"]},{"usr":"s:a","roles":["ChildOf","BaseOf"]},{"usr":"s:b","roles":["CalledBy"]}]},{"usr":"s:a","line":1,"col":20,"roles":["Definition"]},{"usr":"s:a","line":1,"col":3,"roles":["Definition"]},{"usr":"s:c","line":3,"col":1,"roles":["Call"],"relations":[{"usr":"s:a","roles":["BaseOf","ChildOf"]},{"usr":"s:b","roles":["CalledBy"]}]}]},{"path":"p","symbols":[{"usr":"s:z"}]},{"path":"q","symbols":[{"usr":"s:z"}]},{"path":"p","symbols":[{"usr":"s:z"}]}]}}]]}"#;

/// For each build, the names of its records, and that of its unit's bytes.
const MADE: &str =
    r#"["9c498cadf2014879ffd80ce7f89feab86a2032e0b6b10d67628e078624a563f5"] "c8758ada9cda4a2fca495ae61a90fcc8687a911bdc651c002172d2d64f0d0215"
["0c412e714c1fbf08572399e339ed2a8aade8cb278af01d2e1c5cc7edbdb59c23"] "5d8c1f36e730c3fc7b39a4a8e2864172da3e941480fa9e1a9ea73a5008599dae"
["a721c50737005466f43caae3b6ff03da9eb8eccba606d7aa9788d266499161aa", "e47e00ec78d236682ad4fc22f280a883e4c2505f2e240856f241d33382e36fb0"] "058ac209c0894f99093e2bb3a673a5a894146a7ea5e8b60bf7bbd9547d3a343f"
["2a3b1dc9d0b2aeb7caa2b3fd199154dd9ea017849d646b3cba2f7aa43b532278", "a721c50737005466f43caae3b6ff03da9eb8eccba606d7aa9788d266499161aa"] "899381ee4de18d83f537ff44184cf4b67ef22e9d812cf88fc834c67264576cc8"
["137eaf59f03410e5412c4e327e3e0d220f0f82bc55b46572393dfc3b4cf067e3"] "fe8b24b360614483495d08facbbe22a65aa8534fe89cd8d95b0c285b462b12d7"
["2ad1a4a6eda5d8fc633ff307ebeb863a8b39a1aa9239af48ff5868f39c5878c2", "f34e6943a7a8c2bfe88f8f285ac6847802752f169ee342bf175ebb42851a65b8"] "d9dbcb02860abe05da145938cfb09c7c66f1597c5c3152ee3e86788bcad72610""#;

/// The names that a build's job makes, as a line.
fn line_of(alloc: Global, rt: &impl Abort, step: &Step) -> String
    requires { IsStep step.now }
{
    laws::short_plans_have_room();
    match step {
        Step::Build(plan) => {
            let job = JobPlan::make(alloc, plan, &Sha).expect(rt, "memory");
            let bytes = encode(alloc, &job.unit).expect(rt, "memory");
            let unit = Sha.name(bytes.as_slice());
            format!(in alloc; "{:?} {unit:?}", job.names).expect(rt, "memory")
        }
        _ => String::new(alloc),
    }
}

/// Whether the builds of a script's one lane have these lines, and no more.
fn builds_are<'t>(
    alloc: Global,
    rt: &impl Abort,
    steps: &[Step],
    lines: &mut std::str::Lines<'t>,
) -> bool
    requires { AllByRecursion IsStep steps.now }
{
    for step in steps {
        if lines.next() != Some(line_of(alloc, rt, step).as_str()) {
            return false;
        }
    }
    true
}

#[test]
fn jobs_make_these_files(rt: HostRuntime) {
    let alloc = rt.alloc();
    let mut lines = MADE.lines();
    for text in SCRIPTS.lines() {
        let script = Script::read(alloc, text.as_bytes()).expect(&rt, "a script");
        for lane in script.lanes.as_slice() {
            assert!(rt; builds_are(alloc, &rt, lane.as_slice(), &mut lines));
        }
    }
    assert!(rt; lines.next().is_none());
}
