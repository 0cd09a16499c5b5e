//! Worked cases: each script's transcript, to the byte.
use super::*;
use ix_dir::{Area, MemoryDir, Pick};
use ix_io::MemorySink;
use ix_library::check_store;
use ix_plan::Script;
use ix_types::{FileName, Seq, Sha};
use std::alloc::Global;
use std::process::Abort;

const SCRIPT_01: &str =
    r#"{"format":1,"lanes":[[{"do":"build","unit":{"output":"abc","main":"a.swift","module":"M","records":[{"path":"a.swift","symbols":[{"usr":"s:1MA","name":"A","kind":"Struct"}],"occurrences":[{"usr":"s:1MA","line":1,"col":8,"roles":["Definition"]}]}]}},{"do":"poll"},{"do":"refresh"},{"do":"ask","query":"def","usr":"s:1MA"}]]}"#;

const TEXT_01: &str = "\
0 lease 1
0 put 9c498cadf2014879ffd80ce7f89feab86a2032e0b6b10d67628e078624a563f5 written
0 stage ba7816bf8f01cfea414140de5dae2223b00361a396177a9cb410ff61f20015ad ok
0 publish ba7816bf8f01cfea414140de5dae2223b00361a396177a9cb410ff61f20015ad synced
0 scan ok 1
0 load 9c498cadf2014879ffd80ce7f89feab86a2032e0b6b10d67628e078624a563f5 ok
0 install 1
0 adopt 1
0 load 9c498cadf2014879ffd80ce7f89feab86a2032e0b6b10d67628e078624a563f5 ok
ask 0 0 at 1 rows 1
row\ta.swift\t1\t8\tDefinition\tStruct\tSwift\t-\ts:1MA\tA
end 9
";

const SCRIPT_02: &str = r#"{"format":1,"lanes":[]}"#;

const TEXT_02: &str = "\
end 0
";

const SCRIPT_03: &str = r#"{"format":1,"lanes":[[{"do":"ask","query":"def","usr":"s:1MA"}]]}"#;

const TEXT_03: &str = "\
ask 0 0 none
end 0
";

const SCRIPT_04: &str =
    r#"{"format":1,"lanes":[[{"do":"refresh"},{"do":"ask","query":"def","usr":"s:1MA"}]]}"#;

const TEXT_04: &str = "\
0 adopt 0
ask 0 0 at 0 rows 0
end 1
";

const SCRIPT_05: &str =
    r#"{"format":1,"lanes":[[{"do":"build","unit":{"output":"abc","main":"a.swift","module":"M","records":[{"path":"a.swift","symbols":[{"usr":"s:1MA","name":"A","kind":"Struct"}],"occurrences":[{"usr":"s:1MA","line":1,"col":8,"roles":["Definition"]}]}]}},{"do":"build","unit":{"output":"abd","main":"a.swift","module":"M","records":[{"path":"a.swift","symbols":[{"usr":"s:1MA","name":"A","kind":"Struct"}],"occurrences":[{"usr":"s:1MA","line":1,"col":8,"roles":["Definition"]}]}]}},{"do":"poll"},{"do":"ask","query":"def","usr":"s:1MA"}]]}"#;

const TEXT_05: &str = "\
0 lease 1
0 put 9c498cadf2014879ffd80ce7f89feab86a2032e0b6b10d67628e078624a563f5 written
0 stage ba7816bf8f01cfea414140de5dae2223b00361a396177a9cb410ff61f20015ad ok
0 publish ba7816bf8f01cfea414140de5dae2223b00361a396177a9cb410ff61f20015ad synced
0 lease 1
0 put 9c498cadf2014879ffd80ce7f89feab86a2032e0b6b10d67628e078624a563f5 shared
0 stage a52d159f262b2c6ddb724a61840befc36eb30c88877a4030b65cbe86298449c9 ok
0 publish a52d159f262b2c6ddb724a61840befc36eb30c88877a4030b65cbe86298449c9 synced
0 scan ok 2
0 load 9c498cadf2014879ffd80ce7f89feab86a2032e0b6b10d67628e078624a563f5 ok
0 install 2
0 load 9c498cadf2014879ffd80ce7f89feab86a2032e0b6b10d67628e078624a563f5 ok
ask 0 0 at 2 rows 1
row\ta.swift\t1\t8\tDefinition\tStruct\tSwift\t-\ts:1MA\tA
end 12
";

const SCRIPT_06: &str =
    r#"{"format":1,"lanes":[[{"do":"build","unit":{"output":"abc","main":"a.swift","module":"M","records":[{"path":"a.swift","symbols":[{"usr":"s:1MA","name":"A","kind":"Struct"}],"occurrences":[{"usr":"s:1MA","line":1,"col":8,"roles":["Definition"]}]}]}}],[{"do":"collect"}]],"order":[0,0,1,0,0]}"#;

const TEXT_06: &str = "\
0 lease 1
0 put 9c498cadf2014879ffd80ce7f89feab86a2032e0b6b10d67628e078624a563f5 written
1 collect nothing
0 stage ba7816bf8f01cfea414140de5dae2223b00361a396177a9cb410ff61f20015ad ok
0 publish ba7816bf8f01cfea414140de5dae2223b00361a396177a9cb410ff61f20015ad synced
end 5
";

const SCRIPT_07: &str =
    r#"{"format":1,"lanes":[[{"do":"build","unit":{"output":"abc","main":"a.swift","module":"M","records":[{"path":"a.swift","symbols":[{"usr":"s:1MA","name":"A","kind":"Struct"}],"occurrences":[{"usr":"s:1MA","line":1,"col":8,"roles":["Definition"]}]}]}},{"do":"poll"},{"do":"build","unit":{"output":"abc","main":"a.swift","module":"M","records":[{"path":"a.swift","symbols":[{"usr":"s:1MA","name":"A","kind":"Struct"}],"occurrences":[{"usr":"s:1MA","line":2,"col":8,"roles":["Definition"]}]}]}},{"do":"poll"},{"do":"collect"},{"do":"collect"},{"do":"collect"}],[{"do":"refresh"},{"do":"ask","query":"def","usr":"s:1MA"},{"do":"release"}]],"order":[0,0,0,0,0,0,0,1,0,0,0,0,0,0,0,0,0,1,1,0]}"#;

const TEXT_07: &str = "\
0 lease 1
0 put 9c498cadf2014879ffd80ce7f89feab86a2032e0b6b10d67628e078624a563f5 written
0 stage ba7816bf8f01cfea414140de5dae2223b00361a396177a9cb410ff61f20015ad ok
0 publish ba7816bf8f01cfea414140de5dae2223b00361a396177a9cb410ff61f20015ad synced
0 scan ok 1
0 load 9c498cadf2014879ffd80ce7f89feab86a2032e0b6b10d67628e078624a563f5 ok
0 install 1
1 adopt 1
0 lease 1
0 put 6293b642c0cc42567b0799ed1ad2451055030d137e450e6bb43eb17cbab89da8 written
0 stage ba7816bf8f01cfea414140de5dae2223b00361a396177a9cb410ff61f20015ad ok
0 publish ba7816bf8f01cfea414140de5dae2223b00361a396177a9cb410ff61f20015ad synced
0 scan ok 2
0 load 6293b642c0cc42567b0799ed1ad2451055030d137e450e6bb43eb17cbab89da8 ok
0 install 2
0 collect nothing
0 collect nothing
1 load 9c498cadf2014879ffd80ce7f89feab86a2032e0b6b10d67628e078624a563f5 ok
1 release
0 collect removed 9c498cadf2014879ffd80ce7f89feab86a2032e0b6b10d67628e078624a563f5
ask 1 0 at 1 rows 1
row\ta.swift\t1\t8\tDefinition\tStruct\tSwift\t-\ts:1MA\tA
end 20
";

const SCRIPT_08: &str =
    r#"{"format":1,"lanes":[[{"do":"build","unit":{"output":"abc","main":"a.swift","module":"M","records":[{"path":"a.swift","symbols":[{"usr":"s:1MA","name":"A","kind":"Struct"}],"occurrences":[{"usr":"s:1MA","line":1,"col":8,"roles":["Definition"]}]}]}},{"do":"poll"}],[{"do":"build","unit":{"output":"abc","main":"a.swift","module":"M","records":[{"path":"a.swift","symbols":[{"usr":"s:1MA","name":"A","kind":"Struct"}],"occurrences":[{"usr":"s:1MA","line":2,"col":8,"roles":["Definition"]}]}]}},{"do":"collect"}]],"order":[0,0,0,0,0,1,1,1,1,1]}"#;

const TEXT_08: &str = "\
0 lease 1
0 put 9c498cadf2014879ffd80ce7f89feab86a2032e0b6b10d67628e078624a563f5 written
0 stage ba7816bf8f01cfea414140de5dae2223b00361a396177a9cb410ff61f20015ad ok
0 publish ba7816bf8f01cfea414140de5dae2223b00361a396177a9cb410ff61f20015ad synced
0 scan ok 1
1 lease 1
1 put 6293b642c0cc42567b0799ed1ad2451055030d137e450e6bb43eb17cbab89da8 written
1 stage ba7816bf8f01cfea414140de5dae2223b00361a396177a9cb410ff61f20015ad ok
1 publish ba7816bf8f01cfea414140de5dae2223b00361a396177a9cb410ff61f20015ad synced
1 collect nothing
0 load 9c498cadf2014879ffd80ce7f89feab86a2032e0b6b10d67628e078624a563f5 ok
0 install 1
end 12
";

const SCRIPT_09: &str =
    r#"{"format":1,"lanes":[[{"do":"build","unit":{"output":"abc","main":"a.swift","module":"M","records":[{"path":"a.swift","symbols":[{"usr":"s:1MA","name":"A","kind":"Struct"}],"occurrences":[{"usr":"s:1MA","line":1,"col":8,"roles":["Definition"]}]}]}},{"do":"build","unit":{"output":"abd","main":"a.swift","module":"M","records":[{"path":"a.swift","symbols":[{"usr":"s:1MA","name":"A","kind":"Struct"}],"occurrences":[{"usr":"s:1MA","line":1,"col":8,"roles":["Definition"]}]}]}}]]}"#;

const TEXT_09: &str = "\
0 lease 1
0 put 9c498cadf2014879ffd80ce7f89feab86a2032e0b6b10d67628e078624a563f5 written
0 stage ba7816bf8f01cfea414140de5dae2223b00361a396177a9cb410ff61f20015ad ok
0 publish ba7816bf8f01cfea414140de5dae2223b00361a396177a9cb410ff61f20015ad unsynced
0 lease 1
0 put 9c498cadf2014879ffd80ce7f89feab86a2032e0b6b10d67628e078624a563f5 shared
0 stage a52d159f262b2c6ddb724a61840befc36eb30c88877a4030b65cbe86298449c9 ok
0 publish a52d159f262b2c6ddb724a61840befc36eb30c88877a4030b65cbe86298449c9 synced
end 8
";

const SCRIPT_10: &str =
    r#"{"format":1,"lanes":[[{"do":"build","unit":{"output":"abc","main":"a.swift","module":"M","records":[{"path":"a.swift","symbols":[{"usr":"s:1MA","name":"A","kind":"Struct"}],"occurrences":[{"usr":"s:1MA","line":1,"col":8,"roles":["Definition"]}]}]}},{"do":"build","unit":{"output":"abc","main":"a.swift","module":"M","records":[{"path":"a.swift","symbols":[{"usr":"s:1MA","name":"A","kind":"Struct"}],"occurrences":[{"usr":"s:1MA","line":2,"col":8,"roles":["Definition"]}]}]}},{"do":"collect"},{"do":"collect"}]]}"#;

const TEXT_10: &str = "\
0 lease 1
0 put 9c498cadf2014879ffd80ce7f89feab86a2032e0b6b10d67628e078624a563f5 written
0 stage ba7816bf8f01cfea414140de5dae2223b00361a396177a9cb410ff61f20015ad ok
0 publish ba7816bf8f01cfea414140de5dae2223b00361a396177a9cb410ff61f20015ad synced
0 lease 1
0 put 6293b642c0cc42567b0799ed1ad2451055030d137e450e6bb43eb17cbab89da8 written
0 stage ba7816bf8f01cfea414140de5dae2223b00361a396177a9cb410ff61f20015ad ok
0 publish ba7816bf8f01cfea414140de5dae2223b00361a396177a9cb410ff61f20015ad unsynced
0 collect fault
0 collect removed 9c498cadf2014879ffd80ce7f89feab86a2032e0b6b10d67628e078624a563f5
end 10
";

const SCRIPT_12: &str =
    r#"{"format":1,"lanes":[[{"do":"collect"},{"do":"build","unit":{"output":"abc","main":"a.swift","module":"M","records":[{"path":"a.swift","symbols":[{"usr":"s:1MA","name":"A","kind":"Struct"}],"occurrences":[{"usr":"s:1MA","line":1,"col":8,"roles":["Definition"]}]}]}},{"do":"collect"}]]}"#;

const TEXT_12: &str = "\
0 collect nothing
0 lease 1
0 put 9c498cadf2014879ffd80ce7f89feab86a2032e0b6b10d67628e078624a563f5 written
0 stage ba7816bf8f01cfea414140de5dae2223b00361a396177a9cb410ff61f20015ad ok
0 publish ba7816bf8f01cfea414140de5dae2223b00361a396177a9cb410ff61f20015ad synced
0 collect nothing
end 6
";

const SCRIPT_13: &str =
    r#"{"format":1,"lanes":[[{"do":"remove","output":"abc"},{"do":"build","unit":{"output":"abc","main":"a.swift","module":"M","records":[{"path":"a.swift","symbols":[{"usr":"s:1MA","name":"A","kind":"Struct"}],"occurrences":[{"usr":"s:1MA","line":1,"col":8,"roles":["Definition"]}]}]}},{"do":"remove","output":"abc"},{"do":"remove","output":"abc"}]]}"#;

const TEXT_13: &str = "\
0 remove ba7816bf8f01cfea414140de5dae2223b00361a396177a9cb410ff61f20015ad none
0 lease 1
0 put 9c498cadf2014879ffd80ce7f89feab86a2032e0b6b10d67628e078624a563f5 written
0 stage ba7816bf8f01cfea414140de5dae2223b00361a396177a9cb410ff61f20015ad ok
0 publish ba7816bf8f01cfea414140de5dae2223b00361a396177a9cb410ff61f20015ad synced
0 remove ba7816bf8f01cfea414140de5dae2223b00361a396177a9cb410ff61f20015ad synced
0 remove ba7816bf8f01cfea414140de5dae2223b00361a396177a9cb410ff61f20015ad none
end 7
";

const SCRIPT_17: &str =
    r#"{"format":1,"lanes":[[{"do":"build","unit":{"output":"/o/Shape.o","main":"Shape.swift","module":"App","records":[{"path":"Shape.swift","symbols":[{"usr":"s:3App5ShapeC","name":"Shape","kind":"Class"},{"usr":"s:3App5ShapeC4areaSiyF","name":"area()","kind":"InstanceMethod"}],"occurrences":[{"usr":"s:3App5ShapeC","line":1,"col":7,"roles":["Definition"]},{"usr":"s:3App5ShapeC4areaSiyF","line":2,"col":8,"roles":["Definition"],"relations":[{"usr":"s:3App5ShapeC","roles":["ChildOf"]}]}]}]}},{"do":"build","unit":{"output":"/o/Circle.o","main":"Circle.swift","module":"App","units":["/o/Shape.o"],"records":[{"path":"Circle.swift","symbols":[{"usr":"s:3App6CircleC","name":"Circle","kind":"Class"},{"usr":"s:3App6CircleC4areaSiyF","name":"area()","kind":"InstanceMethod"},{"usr":"s:3App5ShapeC","name":"Shape","kind":"Class"},{"usr":"s:3App5ShapeC4areaSiyF","name":"area()","kind":"InstanceMethod"},{"usr":"c:@F@clamp","name":"clamp","kind":"Function","lang":"C"}],"occurrences":[{"usr":"s:3App6CircleC","line":1,"col":7,"roles":["Definition"]},{"usr":"s:3App5ShapeC","line":1,"col":15,"roles":["Reference"],"relations":[{"usr":"s:3App6CircleC","roles":["BaseOf"]}]},{"usr":"s:3App6CircleC4areaSiyF","line":2,"col":17,"roles":["Definition"],"relations":[{"usr":"s:3App6CircleC","roles":["ChildOf"]},{"usr":"s:3App5ShapeC4areaSiyF","roles":["OverrideOf"]}]},{"usr":"c:@F@clamp","line":3,"col":12,"roles":["Reference","Call"],"relations":[{"usr":"s:3App6CircleC4areaSiyF","roles":["CalledBy","ContainedBy"]}]}]},{"path":"util.h","symbols":[{"usr":"c:@F@clamp","name":"clamp","kind":"Function","lang":"C"}],"occurrences":[{"usr":"c:@F@clamp","line":4,"col":5,"roles":["Declaration"]}]}]}},{"do":"build","unit":{"output":"/o/main.o","main":"main.swift","module":"App","units":["/o/Shape.o","/o/Circle.o"],"records":[{"path":"main.swift","symbols":[{"usr":"s:3App4mainyyF","name":"main()","kind":"Function"},{"usr":"s:3App6CircleC","name":"Circle","kind":"Class"},{"usr":"s:3App5ShapeC4areaSiyF","name":"area()","kind":"InstanceMethod"}],"occurrences":[{"usr":"s:3App4mainyyF","line":1,"col":6,"roles":["Definition"]},{"usr":"s:3App6CircleC","line":2,"col":13,"roles":["Reference"],"relations":[{"usr":"s:3App4mainyyF","roles":["ContainedBy"]}]},{"usr":"s:3App5ShapeC4areaSiyF","line":3,"col":9,"roles":["Reference","Call","Dynamic"],"relations":[{"usr":"s:3App4mainyyF","roles":["CalledBy","ContainedBy"]}]}]},{"path":"util.h","symbols":[{"usr":"c:@F@clamp","name":"clamp","kind":"Function","lang":"C"}],"occurrences":[{"usr":"c:@F@clamp","line":4,"col":5,"roles":["Declaration"]}]}]}},{"do":"poll"},{"do":"ask","query":"def","usr":"c:@F@clamp"},{"do":"ask","query":"refs","usr":"s:3App5ShapeC"},{"do":"ask","query":"overrides","usr":"s:3App5ShapeC4areaSiyF"},{"do":"ask","query":"callers","usr":"c:@F@clamp"},{"do":"ask","query":"supertypes","usr":"s:3App6CircleC","depth":2},{"do":"ask","query":"mains","path":"util.h"},{"do":"ask","query":"pattern","text":"area","start":true}]]}"#;

const TEXT_17: &str = "\
0 lease 1
0 put 0c412e714c1fbf08572399e339ed2a8aade8cb278af01d2e1c5cc7edbdb59c23 written
0 stage a92ac48d182a00527673d478479363dca7305991e95af1c321379e041747f36e ok
0 publish a92ac48d182a00527673d478479363dca7305991e95af1c321379e041747f36e synced
0 lease 2
0 put a721c50737005466f43caae3b6ff03da9eb8eccba606d7aa9788d266499161aa written
0 put e47e00ec78d236682ad4fc22f280a883e4c2505f2e240856f241d33382e36fb0 written
0 stage c5f42e49feb077298f3631b383687ec35d78d9b3f8aba1ae6097b5a6803fee27 ok
0 publish c5f42e49feb077298f3631b383687ec35d78d9b3f8aba1ae6097b5a6803fee27 synced
0 lease 2
0 put 2a3b1dc9d0b2aeb7caa2b3fd199154dd9ea017849d646b3cba2f7aa43b532278 written
0 put a721c50737005466f43caae3b6ff03da9eb8eccba606d7aa9788d266499161aa shared
0 stage 3e7dc397fa49d0eda406c37d4165646da3dec450577282b3714d5f830a0d6591 ok
0 publish 3e7dc397fa49d0eda406c37d4165646da3dec450577282b3714d5f830a0d6591 synced
0 scan ok 3
0 load 0c412e714c1fbf08572399e339ed2a8aade8cb278af01d2e1c5cc7edbdb59c23 ok
0 load 2a3b1dc9d0b2aeb7caa2b3fd199154dd9ea017849d646b3cba2f7aa43b532278 ok
0 load a721c50737005466f43caae3b6ff03da9eb8eccba606d7aa9788d266499161aa ok
0 load e47e00ec78d236682ad4fc22f280a883e4c2505f2e240856f241d33382e36fb0 ok
0 install 3
0 load a721c50737005466f43caae3b6ff03da9eb8eccba606d7aa9788d266499161aa ok
0 load e47e00ec78d236682ad4fc22f280a883e4c2505f2e240856f241d33382e36fb0 ok
0 load 0c412e714c1fbf08572399e339ed2a8aade8cb278af01d2e1c5cc7edbdb59c23 ok
0 load 2a3b1dc9d0b2aeb7caa2b3fd199154dd9ea017849d646b3cba2f7aa43b532278 ok
ask 0 0 at 3 rows 1
row\tutil.h\t4\t5\tDeclaration\tFunction\tC\t-\tc:@F@clamp\tclamp
ask 0 1 at 3 rows 1
row\tCircle.swift\t1\t15\tReference+BaseOf\tClass\tSwift\t-\ts:3App5ShapeC\tShape\tBaseOf=s:3App6CircleC
ask 0 2 at 3 rows 1
row\tCircle.swift\t2\t17\tDefinition+ChildOf+OverrideOf\tInstanceMethod\tSwift\t-\ts:3App6CircleC4areaSiyF\tarea()\tOverrideOf=s:3App5ShapeC4areaSiyF\tChildOf=s:3App6CircleC
ask 0 3 at 3 rows 1
row\tCircle.swift\t3\t12\tReference+Call+CalledBy+ContainedBy\tFunction\tC\t-\tc:@F@clamp\tclamp\tCalledBy+ContainedBy=s:3App6CircleC4areaSiyF
ask 0 4 at 3 rows 1
edge\t1\ts:3App6CircleC\ts:3App5ShapeC\tCircle.swift\t1\t15
ask 0 5 at 3 rows 2
path\tCircle.swift
path\tmain.swift
ask 0 6 at 3 rows 2
row\tCircle.swift\t2\t17\tDefinition+ChildOf+OverrideOf\tInstanceMethod\tSwift\t-\ts:3App6CircleC4areaSiyF\tarea()\tOverrideOf=s:3App5ShapeC4areaSiyF\tChildOf=s:3App6CircleC
row\tShape.swift\t2\t8\tDefinition+ChildOf\tInstanceMethod\tSwift\t-\ts:3App5ShapeC4areaSiyF\tarea()\tChildOf=s:3App5ShapeC
end 24
";

const SCRIPT_19: &str =
    r#"{"format":1,"lanes":[[{"do":"build","unit":{"output":"x","records":[{"path":"r.swift","symbols":[{"usr":"s:f","kind":"Function"},{"usr":"s:g","kind":"Function"}],"occurrences":[{"usr":"s:f","line":1,"col":6,"roles":["Definition"]},{"usr":"s:g","line":2,"col":3,"roles":["Reference","Call"],"relations":[{"usr":"s:f","roles":["CalledBy"]}]},{"usr":"s:f","line":3,"col":3,"roles":["Reference","Call"],"relations":[{"usr":"s:f","roles":["CalledBy"]}]},{"usr":"s:g","line":5,"col":6,"roles":["Definition"]},{"usr":"s:f","line":6,"col":3,"roles":["Reference","Call"],"relations":[{"usr":"s:g","roles":["CalledBy"]}]}]}]}},{"do":"poll"},{"do":"ask","query":"incoming","usr":"s:f","depth":16}]]}"#;

const TEXT_19: &str = "\
0 lease 1
0 put 995cf588c574b759d069e1cca5a22e644e0f5b3d10abdb3ca1b696c80a7258bf written
0 stage 2d711642b726b04401627ca9fbac32f5c8530fb1903cc4db02258717921a4881 ok
0 publish 2d711642b726b04401627ca9fbac32f5c8530fb1903cc4db02258717921a4881 synced
0 scan ok 1
0 load 995cf588c574b759d069e1cca5a22e644e0f5b3d10abdb3ca1b696c80a7258bf ok
0 install 1
0 load 995cf588c574b759d069e1cca5a22e644e0f5b3d10abdb3ca1b696c80a7258bf ok
ask 0 0 at 1 rows 3
edge\t1\ts:f\ts:f\tr.swift\t3\t3
edge\t1\ts:f\ts:g\tr.swift\t6\t3
edge\t2\ts:g\ts:f\tr.swift\t2\t3
end 8
";

const SCRIPT_20A: &str =
    r#"{"format":1,"lanes":[[{"do":"release"}],[{"do":"collect"}]],"order":[0,0,0,1]}"#;

const TEXT_20A: &str = "\
0 release
1 collect nothing
end 2
";

const SCRIPT_20B: &str =
    r#"{"format":1,"lanes":[[{"do":"release"}],[{"do":"collect"}]],"order":[1]}"#;

const TEXT_20B: &str = "\
1 collect nothing
0 release
end 2
";

const SCRIPT_22: &str =
    r#"{"format":1,"lanes":[[{"do":"build","unit":{"output":"abc","main":"a.swift","module":"M","records":[{"path":"a.swift","symbols":[{"usr":"s:1MA","name":"A","kind":"Struct"}],"occurrences":[{"usr":"s:1MA","line":1,"col":8,"roles":["Definition"]}]}]}},{"do":"poll"},{"do":"ask","query":"def","usr":"s:1MA"}]]}"#;

const TEXT_22: &str = "\
0 lease 1
0 put 9c498cadf2014879ffd80ce7f89feab86a2032e0b6b10d67628e078624a563f5 written
0 stage ba7816bf8f01cfea414140de5dae2223b00361a396177a9cb410ff61f20015ad ok
0 publish ba7816bf8f01cfea414140de5dae2223b00361a396177a9cb410ff61f20015ad synced
0 scan ok 1
0 load 9c498cadf2014879ffd80ce7f89feab86a2032e0b6b10d67628e078624a563f5 ok
0 install 1
0 load 9c498cadf2014879ffd80ce7f89feab86a2032e0b6b10d67628e078624a563f5 ok
ask 0 0 at 1 rows 1
row\ta.swift\t1\t8\tDefinition\tStruct\tSwift\t-\ts:1MA\tA
end 8
";

const SCRIPT_CODEGEN: &str =
    r#"{"format":2,"lanes":[[{"do":"build","unit":{"output":"abc","main":"a.swift","module":"M","records":[{"path":"a.swift","symbols":[{"usr":"s:1MA","name":"A","kind":"Struct","codegen":"$s1MAV"}],"occurrences":[{"usr":"s:1MA","line":1,"col":8,"roles":["Definition"]}]}]}},{"do":"poll"},{"do":"ask","query":"codegen","codegen":"$s1MAV"}]]}"#;

const TEXT_CODEGEN: &str = "\
0 lease 1
0 put 137eaf59f03410e5412c4e327e3e0d220f0f82bc55b46572393dfc3b4cf067e3 written
0 stage ba7816bf8f01cfea414140de5dae2223b00361a396177a9cb410ff61f20015ad ok
0 publish ba7816bf8f01cfea414140de5dae2223b00361a396177a9cb410ff61f20015ad synced
0 scan ok 1
0 load 137eaf59f03410e5412c4e327e3e0d220f0f82bc55b46572393dfc3b4cf067e3 ok
0 install 1
0 load 137eaf59f03410e5412c4e327e3e0d220f0f82bc55b46572393dfc3b4cf067e3 ok
ask 0 0 at 1 rows 1
row\ta.swift\t1\t8\tDefinition\tStruct\tSwift\t-\ts:1MA\tA
end 8
";

const TEXT_NAME: &str = "\
refused a52d159f262b2c6ddb724a61840befc36eb30c88877a4030b65cbe86298449c9 name
end 0
";

const TEXT_MISSING: &str = "\
refused ba7816bf8f01cfea414140de5dae2223b00361a396177a9cb410ff61f20015ad record-missing 9c498cadf2014879ffd80ce7f89feab86a2032e0b6b10d67628e078624a563f5
end 0
";

const TEXT_DAMAGED: &str = "\
refused ba7816bf8f01cfea414140de5dae2223b00361a396177a9cb410ff61f20015ad record-damaged 9c498cadf2014879ffd80ce7f89feab86a2032e0b6b10d67628e078624a563f5
end 0
";

const TEXT_FIELD: &str = "\
refused ba7816bf8f01cfea414140de5dae2223b00361a396177a9cb410ff61f20015ad field 27
end 0
";

const TEXT_SHORT: &str = "\
refused ba7816bf8f01cfea414140de5dae2223b00361a396177a9cb410ff61f20015ad short
end 0
";

/// The file of a unit of output `abc` with one record, and that of output `abd`.
const UNIT: &str =
    "495855310000000361626300000007612e7377696674000000014d00000000000000010000000200000007612e73776966740000000000000040396334393863616466323031343837396666643830636537663839666561623836613230333265306236623130643637363238653037383632346135363366350000000089fb523845df90b5aff46262f8c7e3d88786957aa1cd72c9c9885240c9debcc3";

const OTHER_UNIT: &str =
    "495855310000000361626400000007612e7377696674000000014d00000000000000010000000200000007612e7377696674000000000000004039633439386361646632303134383739666664383063653766383966656162383661323033326530623662313064363736323865303738363234613536336635000000005cde4745e4bc7535c3e7b4496c498d92d9bea3e001b76dd3f4c397e1a0ba1a56";

/// The same of output `abc` without its last byte, and with a byte that its field can't have.
const SHORT_UNIT: &str =
    "495855310000000361626300000007612e7377696674000000014d00000000000000010000000200000007612e73776966740000000000000040396334393863616466323031343837396666643830636537663839666561623836613230333265306236623130643637363238653037383632346135363366350000000089fb523845df90b5aff46262f8c7e3d88786957aa1cd72c9c9885240c9debc";

const WRONG_UNIT: &str =
    "495855310000000361626300000007612e7377696674000000014d00000002000000010000000200000007612e737769667400000000000000403963343938636164663230313438373966666438306365376638396665616238366132303332653062366231306436373632386530373836323461353633663500000000a98c978b8e1b87510dd58353244764c371a47d93cee1f0dd3039fa7f79dc6283";

/// The record of both, and the record without its last byte.
const RECORD: &str =
    "495852310000000100000006000000640000000000000005733a314d410000000141000000010000000100000008000000000000000200000000";

const SHORT_RECORD: &str =
    "495852310000000100000006000000640000000000000005733a314d4100000001410000000100000001000000080000000000000002000000";

/// The names of the record, and of the outputs `abc` and `abd`.
const RECORD_NAME: &[u8] = b"9c498cadf2014879ffd80ce7f89feab86a2032e0b6b10d67628e078624a563f5";

const ABC: &[u8] = b"ba7816bf8f01cfea414140de5dae2223b00361a396177a9cb410ff61f20015ad";

const ABD: &[u8] = b"a52d159f262b2c6ddb724a61840befc36eb30c88877a4030b65cbe86298449c9";

/// A directory of which the calls of these numbers fail.
fn failing(alloc: Global, rt: &impl Abort, fails: &[u64]) -> MemoryDir {
    let mut calls = Vec::new(alloc);
    for call in fails {
        calls.push(*call).expect(rt, "memory");
    }
    MemoryDir::failing(alloc, Seq::of(calls))
}

/// Places a file, where there are digits of one.
fn put(alloc: Global, rt: &impl Abort, dir: &mut MemoryDir, area: Area, name: &[u8], digits: &str) {
    if digits.is_empty() {
        return;
    }
    let name = FileName::read(name).expect(rt, "a name");
    let bytes = hex::decode(alloc, digits.as_bytes()).expect(rt, "digits");
    dir.place(alloc, area, name, bytes.as_slice())
        .expect(rt, "memory");
}

/// A directory with a unit's file under the name, and with the record's.
fn stored(alloc: Global, rt: &impl Abort, name: &[u8], unit: &str, record: &str) -> MemoryDir {
    let mut dir = MemoryDir::new(alloc);
    put(alloc, rt, &mut dir, Area::Units, name, unit);
    put(alloc, rt, &mut dir, Area::Records, RECORD_NAME, record);
    dir
}

/// The script's run over this directory.
fn run_over(alloc: Global, rt: &impl Abort, dir: MemoryDir, script: &str) -> Replayed<MemoryDir> {
    laws::names_of_digests_are_file_names();
    let script = Script::read(alloc, script.as_bytes()).expect(rt, "a script");
    replay(alloc, dir, Sha, &script)
}

/// Whether the script's run over this directory has this transcript.
fn replays(alloc: Global, rt: &impl Abort, dir: MemoryDir, script: &str, text: &str) -> bool {
    let replayed = run_over(alloc, rt, dir, script);
    let transcript = replayed.result.expect(rt, "a run");
    let mut sink = MemorySink::new(alloc, 4_096, Seq::of(Vec::new(alloc)));
    write_transcript(alloc, &transcript, &mut sink).is_ok() && sink.written() == text.as_bytes()
}

/// Whether the script's run over an empty store, of which the calls of these numbers fail, has this transcript.
fn shows(alloc: Global, rt: &impl Abort, script: &str, fails: &[u64], text: &str) -> bool {
    replays(alloc, rt, failing(alloc, rt, fails), script, text)
}

/// Whether a run over such a directory begins with this refusal, and has no event.
fn refuses(
    alloc: Global,
    rt: &impl Abort,
    name: &[u8],
    unit: &str,
    record: &str,
    text: &str,
) -> bool {
    replays(
        alloc,
        rt,
        stored(alloc, rt, name, unit, record),
        SCRIPT_02,
        text,
    )
}

/// How many units an opening finds in the directory that the run hands back, after a stop. It refuses none.
fn units_left(alloc: Global, rt: &impl Abort, script: &str, fails: &[u64], pick: Pick) -> usize {
    let replayed = run_over(alloc, rt, failing(alloc, rt, fails), script);
    let mut image = replayed.dir.stopped(alloc, pick).expect(rt, "memory");
    let found = check_store(alloc, &mut image, &Sha).expect(rt, "a look");
    assert!(rt; found.refused.as_slice().is_empty());
    found.units.as_slice().len()
}

#[test]
fn scripts_have_their_transcripts(rt: HostRuntime) {
    let alloc = rt.alloc();
    assert!(rt; shows(alloc, &rt, SCRIPT_01, &[], TEXT_01));
    assert!(rt; shows(alloc, &rt, SCRIPT_02, &[], TEXT_02));
    assert!(rt; shows(alloc, &rt, SCRIPT_03, &[], TEXT_03));
    assert!(rt; shows(alloc, &rt, SCRIPT_04, &[], TEXT_04));
    assert!(rt; shows(alloc, &rt, SCRIPT_05, &[], TEXT_05));
    assert!(rt; shows(alloc, &rt, SCRIPT_06, &[], TEXT_06));
    assert!(rt; shows(alloc, &rt, SCRIPT_07, &[], TEXT_07));
    assert!(rt; shows(alloc, &rt, SCRIPT_08, &[], TEXT_08));
    assert!(rt; shows(alloc, &rt, SCRIPT_12, &[], TEXT_12));
    assert!(rt; shows(alloc, &rt, SCRIPT_13, &[], TEXT_13));
    assert!(rt; shows(alloc, &rt, SCRIPT_17, &[], TEXT_17));
    assert!(rt; shows(alloc, &rt, SCRIPT_19, &[], TEXT_19));
    assert!(rt; shows(alloc, &rt, SCRIPT_20A, &[], TEXT_20A));
    assert!(rt; shows(alloc, &rt, SCRIPT_20B, &[], TEXT_20B));
    assert!(rt; shows(alloc, &rt, SCRIPT_22, &[], TEXT_22));
    assert!(rt; shows(alloc, &rt, SCRIPT_CODEGEN, &[], TEXT_CODEGEN));
}

#[test]
fn failing_calls_are_told_and_the_run_goes_on(rt: HostRuntime) {
    let alloc = rt.alloc();
    assert!(rt; shows(alloc, &rt, SCRIPT_09, &[10], TEXT_09));
    assert!(rt; shows(alloc, &rt, SCRIPT_10, &[17, 18], TEXT_10));
}

#[test]
fn units_that_are_refused_stand_first(rt: HostRuntime) {
    let alloc = rt.alloc();
    let mut dir = stored(alloc, &rt, ABC, SHORT_UNIT, RECORD);
    put(alloc, &rt, &mut dir, Area::Units, ABD, OTHER_UNIT);
    assert!(rt; replays(alloc, &rt, dir, SCRIPT_02, TEXT_SHORT));
    assert!(rt; refuses(alloc, &rt, ABD, UNIT, RECORD, TEXT_NAME));
    assert!(rt; refuses(alloc, &rt, ABC, UNIT, "", TEXT_MISSING));
    assert!(rt; refuses(alloc, &rt, ABC, UNIT, SHORT_RECORD, TEXT_DAMAGED));
    assert!(rt; refuses(alloc, &rt, ABC, WRONG_UNIT, "", TEXT_FIELD));
}

#[test]
fn a_store_that_cannot_be_opened_has_no_run(rt: HostRuntime) {
    let alloc = rt.alloc();
    let replayed = run_over(alloc, &rt, failing(alloc, &rt, &[1]), SCRIPT_02);
    assert!(rt; matches!(replayed.result, Err(ReplayError::OpenFault)));
}

#[test]
fn what_was_published_stands_in_the_directory_behind_a_run(rt: HostRuntime) {
    let alloc = rt.alloc();
    assert!(rt; units_left(alloc, &rt, SCRIPT_01, &[], Pick::Oldest) == 1);
    assert!(rt; units_left(alloc, &rt, SCRIPT_01, &[], Pick::Newest) == 1);
    assert!(rt; units_left(alloc, &rt, SCRIPT_09, &[10], Pick::Oldest) == 2);
    assert!(rt; units_left(alloc, &rt, SCRIPT_09, &[10], Pick::Newest) == 2);
    assert!(rt; units_left(alloc, &rt, SCRIPT_10, &[17, 18], Pick::Oldest) == 1);
    assert!(rt; units_left(alloc, &rt, SCRIPT_10, &[17, 18], Pick::Nth(1)) == 1);
}
