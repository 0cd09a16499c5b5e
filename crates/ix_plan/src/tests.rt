use crate::{Script, read_ask};
use itoa::Buffer;
use serde_json::Value;
use std::alloc::Global;
use std::process::Abort;

/// A script of format 2 with each kind of step and each kind of object.
const WORKED: &str =
    r#"{"format":2,"order":[0,1],"lanes":[[{"do":"build","unit":{"output":"o","main":"m","module":"","system":true,"units":["x"],"files":[{"path":"f","system":false}],"includes":[{"from":"a","line":3,"to":"b"}],"records":[{"path":"p","system":false,"symbols":[{"usr":"u1","name":"n","kind":"Class","lang":"C++","props":["Local","UnitTest"],"codegen":"g"},{"usr":"u2"}],"occurrences":[{"usr":"u1","line":1,"col":2,"roles":["Call","Call"],"relations":[{"usr":"u2","roles":["CalledBy"]}]}]}]}},{"do":"remove","output":"o"},{"do":"poll"},{"do":"refresh"},{"do":"release"},{"do":"collect"}],[{"do":"ask","query":"def","usr":"u3"},{"do":"ask","query":"occ","usr":"u3","roles":["Read","ChildOf"]},{"do":"ask","query":"rel","usr":"u3","roles":["BaseOf"]},{"do":"ask","query":"name","name":"k"},{"do":"ask","query":"pattern","text":"t","fold":true},{"do":"ask","query":"mains","path":"q"},{"do":"ask","query":"incoming","usr":"u3","depth":16},{"do":"ask","query":"codegen","codegen":"c"},{"do":"ask","query":"refs","usr":"u4"},{"do":"ask","query":"callers","usr":"u5"},{"do":"ask","query":"overrides","usr":"u6"},{"do":"ask","query":"symbols","path":"a"},{"do":"ask","query":"units","path":"b"},{"do":"ask","query":"includes","path":"c"},{"do":"ask","query":"includers","path":"d"},{"do":"ask","query":"outgoing","usr":"u7","depth":1},{"do":"ask","query":"supertypes","usr":"u8","depth":2},{"do":"ask","query":"subtypes","usr":"u9","depth":3}]]}"#;

/// What the worked script is.
const VALUE: &str =
    r#"Script { lanes: [[Build(UnitPlan { output: "o", main: "m", module: "", system: true, units: ["x"], records: [RecordPlan { format: Two, path: "p", system: false, symbols: [SymbolPlan { usr: "u1", name: "n", kind: Kind { code: 7 }, lang: Lang { code: 2 }, props: Props { bits: 136 }, codegen: "g" }, SymbolPlan { usr: "u2", name: "", kind: Kind { code: 0 }, lang: Lang { code: 100 }, props: Props { bits: 0 }, codegen: "" }], occurrences: [OccurrencePlan { usr: "u1", line: 1, col: 2, roles: Roles { bits: 32 }, relations: [RelationPlan { usr: "u2", roles: Roles { bits: 8192 } }] }] }], files: [FilePlan { path: "f", system: false }], includes: [IncludePlan { from: "a", line: 3, to: "b" }] }), Remove("o"), Poll, Refresh, Release, Collect], [Ask(Def { usr: "u3" }), Ask(Occ { usr: "u3", roles: Roles { bits: 520 } }), Ask(Rel { usr: "u3", roles: Roles { bits: 1024 } }), Ask(Name { name: "k" }), Ask(Pattern { text: "t", start: false, end: false, fold: true }), Ask(Mains { path: "q" }), Ask(Incoming { usr: "u3", depth: 16 }), Ask(Codegen { codegen: "c" }), Ask(Refs { usr: "u4" }), Ask(Callers { usr: "u5" }), Ask(Overrides { usr: "u6" }), Ask(Symbols { path: "a" }), Ask(Units { path: "b" }), Ask(Includes { path: "c" }), Ask(Includers { path: "d" }), Ask(Outgoing { usr: "u7", depth: 1 }), Ask(Supertypes { usr: "u8", depth: 2 }), Ask(Subtypes { usr: "u9", depth: 3 })]], order: [0, 1] }"#;

/// The answer for the worked script once its first `old` is `new`.
const CHANGES: &str = r#"not JSON | {"format" | {"format":
field at "" | "order" | "orders"
field at "/format" | "format":2, | 
value at "/format" | "format":2 | "format":2.0
value at "/format" | "format":2 | "format":3
field at "/lanes/0/0/unit/records/0/symbols/0" | "format":2 | "format":1
value at "/order/1" | [0,1] | [0,2]
value at "/order/0" | [0,1] | [-1,2]
accepted | "order":[0,1], | 
value at "/lanes/0/0" | {"do":"build" | 7,{"do":"build"
field at "/lanes/0/0/do" | "do":"build" | "does":"build"
value at "/lanes/0/0/do" | "do":"build" | "x":1,"do":"make"
field at "/lanes/0/0" | "do":"build" | "x":1,"do":"build"
field at "/lanes/0/0/unit" | "output":"o", | "out":"o",
value at "/lanes/0/0/unit/output" | "output":"o" | "output":""
accepted | "main":"m" | "main":""
value at "/lanes/0/0/unit/system" | "system":true | "system":1
value at "/lanes/0/0/unit/units/0" | ["x"] | [null]
value at "/lanes/0/0/unit/units" | ["x"] | {}
field at "/lanes/0/0/unit/files/0/path" | {"path":"f", | {
value at "/lanes/0/0/unit/includes/0/line" | "line":3 | "line":0
value at "/lanes/0/0/unit/records/0/symbols/1/usr" | {"usr":"u2"} | {"usr":"u1"}
value at "/lanes/0/0/unit/records/0/symbols/0/kind" | "Class" | "class"
value at "/lanes/0/0/unit/records/0/symbols/0/props/1" | "UnitTest" | "Unit"
value at "/lanes/0/0/unit/records/0/occurrences/0/usr" | "usr":"u1","line" | "usr":"u3","line"
value at "/lanes/0/0/unit/records/0/occurrences/0/roles" | ["Call","Call"] | []
value at "/lanes/0/0/unit/records/0/occurrences/0/relations/0/usr" | [{"usr":"u2" | [{"usr":"u4"
value at "/lanes/0/0/unit/records/0/occurrences/0/relations/0/roles/0" | ["CalledBy"] | ["Call"]
second polling lane 1 | {"do":"ask","query":"def","usr":"u3"} | {"do":"poll"}
field at "/lanes/1/0/query" | {"do":"ask","query":"def","usr":"u3"} | {"do":"ask"}
value at "/lanes/1/0/query" | "query":"def" | "query":"codegens","x":1
field at "/lanes/1/0" | "query":"def" | "query":"def","depth":1
value at "/lanes/1/6/depth" | "depth":16 | "depth":17
accepted | "depth":16 | "depth":1,"\u0064epth":16
value at "/lanes/1/3/name" | "name":"k" | "name":"\u0001"
value at "/format" | "format":2 | "format":0
field at "" | "format":2 | "x":1,"format":0
field at "/lanes/0/1/output" | "remove","output":"o" | "remove"
value at "/lanes/0/1/output" | "remove","output":"o" | "remove","output":""
field at "/lanes/0/1" | "remove","output":"o" | "remove","unit":{}
field at "/lanes/0/2" | "poll" | "poll","output":"o"
field at "/lanes/0/3" | "refresh" | "refresh","output":"o"
field at "/lanes/0/4" | "release" | "release","output":"o"
field at "/lanes/0/5" | "collect" | "collect","output":"o"
field at "/lanes/0/0/unit" | "output":"o", | "x":1,"output":"",
value at "/lanes/0/0/unit/main" | "main":"m" | "main":null
value at "/lanes/0/0/unit/module" | "module":"" | "module":1
value at "/lanes/0/0/unit/units/0" | ["x"] | [""]
value at "/lanes/0/0/unit/files/0" | {"path":"f", | 7,{"path":"f",
field at "/lanes/0/0/unit/files/0" | {"path":"f", | {"x":1,"path":"",
value at "/lanes/0/0/unit/files/0/system" | "f","system":false | "f","system":null
value at "/lanes/0/0/unit/includes/0" | {"from":"a" | [],{"from":"a"
field at "/lanes/0/0/unit/includes/0" | {"from":"a" | {"x":1,"from":""
field at "/lanes/0/0/unit/includes/0/from" | {"from":"a", | {
value at "/lanes/0/0/unit/includes/0/from" | "from":"a" | "from":""
field at "/lanes/0/0/unit/includes/0/line" | ,"line":3 | 
field at "/lanes/0/0/unit/includes/0/to" | ,"to":"b" | 
value at "/lanes/0/0/unit/includes/0/to" | "to":"b" | "to":2
value at "/lanes/0/0/unit/records/0" | {"path":"p" | null,{"path":"p"
field at "/lanes/0/0/unit/records/0" | {"path":"p" | {"format":2,"path":""
field at "/lanes/0/0/unit/records/0/path" | {"path":"p", | {
value at "/lanes/0/0/unit/records/0/path" | {"path":"p" | {"path":""
value at "/lanes/0/0/unit/records/0/system" | "p","system":false | "p","system":"false"
value at "/lanes/0/0/unit/records/0/symbols/0" | {"usr":"u1","name" | "u1",{"usr":"u1","name"
field at "/lanes/0/0/unit/records/0/symbols/0" | {"usr":"u1","name" | {"x":1,"usr":"","name"
field at "/lanes/0/0/unit/records/0/symbols/0/usr" | {"usr":"u1","name" | {"name"
value at "/lanes/0/0/unit/records/0/symbols/0/name" | "name":"n" | "name":7
value at "/lanes/0/0/unit/records/0/symbols/0/lang" | "C++" | "Cpp"
value at "/lanes/0/0/unit/records/0/symbols/0/props" | ["Local","UnitTest"] | "Local"
value at "/lanes/0/0/unit/records/0/symbols/0/codegen" | "codegen":"g" | "codegen":7
value at "/lanes/0/0/unit/records/0/occurrences/0" | {"usr":"u1","line" | 7,{"usr":"u1","line"
field at "/lanes/0/0/unit/records/0/occurrences/0" | {"usr":"u1","line" | {"x":1,"usr":"","line"
field at "/lanes/0/0/unit/records/0/occurrences/0/usr" | {"usr":"u1","line" | {"line"
field at "/lanes/0/0/unit/records/0/occurrences/0/line" | "line":1, | 
value at "/lanes/0/0/unit/records/0/occurrences/0/line" | "line":1, | "line":-1,
field at "/lanes/0/0/unit/records/0/occurrences/0/col" | "col":2, | 
value at "/lanes/0/0/unit/records/0/occurrences/0/col" | "col":2 | "col":0
value at "/lanes/0/0/unit/records/0/occurrences/0/col" | "col":2 | "col":4294967296
field at "/lanes/0/0/unit/records/0/occurrences/0/roles" | "roles":["Call","Call"], | 
value at "/lanes/0/0/unit/records/0/occurrences/0/roles/1" | ["Call","Call"] | ["Call","call"]
value at "/lanes/0/0/unit/records/0/occurrences/0/relations/0" | [{"usr":"u2" | [7,{"usr":"u2"
field at "/lanes/0/0/unit/records/0/occurrences/0/relations/0" | [{"usr":"u2" | [{"x":1,"usr":""
field at "/lanes/0/0/unit/records/0/occurrences/0/relations/0/usr" | [{"usr":"u2", | [{
field at "/lanes/0/0/unit/records/0/occurrences/0/relations/0/roles" | ,"roles":["CalledBy"] | 
value at "/lanes/0/0/unit/records/0/occurrences/0/relations/0/roles" | ["CalledBy"] | []
field at "/lanes/1/0/usr" | "def","usr":"u3" | "def"
value at "/lanes/1/0/usr" | "def","usr":"u3" | "def","usr":""
value at "/lanes/1/1/roles" | ["Read","ChildOf"] | []
value at "/lanes/1/1/roles/1" | ["Read","ChildOf"] | ["Read","childOf"]
field at "/lanes/1/1/roles" | ,"roles":["Read","ChildOf"] | 
field at "/lanes/1/1" | "roles":["Read" | "role":["Read"
value at "/lanes/1/2/roles/1" | ["BaseOf"] | ["BaseOf","Read"]
value at "/lanes/1/2/roles" | ["BaseOf"] | []
field at "/lanes/1/2/roles" | ,"roles":["BaseOf"] | 
field at "/lanes/1/3/name" | ,"name":"k" | 
field at "/lanes/1/3" | "name":"k" | "name":7,"usr":"u3"
field at "/lanes/1/4/text" | "text":"t", | 
value at "/lanes/1/4/text" | "text":"t" | "text":""
value at "/lanes/1/4/fold" | "fold":true | "fold":1
field at "/lanes/1/4" | "fold":true | "folds":true
field at "/lanes/1/5/path" | ,"path":"q" | 
field at "/lanes/1/6/depth" | ,"depth":16 | 
value at "/lanes/1/6/depth" | "depth":16 | "depth":0
value at "/lanes/1/6/depth" | "depth":16 | "depth":1.0
field at "/lanes/1/6" | "depth":16 | "depths":16
field at "/lanes/1/7/codegen" | "codegen","codegen":"c" | "codegen"
value at "/lanes/1/7/codegen" | "codegen","codegen":"c" | "codegen","codegen":""
value at "/lanes/1/8/usr" | "refs","usr":"u4" | "refs","usr":""
field at "/lanes/1/8" | "refs","usr" | "refs","depth":1,"usr"
field at "/lanes/1/9/usr" | "callers","usr":"u5" | "callers"
value at "/lanes/1/9/usr" | "usr":"u5" | "usr":5
field at "/lanes/1/10" | "overrides","usr" | "overrides","path":"p","usr"
value at "/lanes/1/10/usr" | "usr":"u6" | "usr":["u6"]
field at "/lanes/1/5" | "mains","path" | "mains","usr":"","path"
value at "/lanes/1/5/path" | "path":"q" | "path":""
field at "/lanes/1/11" | "symbols","path" | "symbols","usr":"u","path"
value at "/lanes/1/11/path" | "path":"a" | "path":null
field at "/lanes/1/12/path" | "units","path":"b" | "units"
value at "/lanes/1/12/path" | "path":"b" | "path":false
field at "/lanes/1/13" | "includes","path" | "includes","paths"
value at "/lanes/1/13/path" | "path":"c" | "path":"\u007f"
field at "/lanes/1/14/path" | "includers","path":"d" | "includers"
value at "/lanes/1/14/path" | "path":"d" | "path":7
field at "/lanes/1/15/usr" | "outgoing","usr":"u7" | "outgoing"
value at "/lanes/1/15/depth" | "u7","depth":1 | "u7","depth":17
field at "/lanes/1/16/depth" | "u8","depth":2 | "u8"
value at "/lanes/1/16/depth" | "u8","depth":2 | "u8","depth":0
field at "/lanes/1/17" | "subtypes","usr" | "subtypes","path":"p","usr"
value at "/lanes/1/17/usr" | "usr":"u9" | "usr":{}
field at "/lanes/1/2" | "roles":["BaseOf"] | "role":["BaseOf"]
field at "/lanes/1/7" | "codegen":"c" | "name":"c"
value at "/lanes/0/0/unit/includes" | "includes":[{"from":"a","line":3,"to":"b"}] | "includes":{}
value at "/lanes/0/0/unit/records/0/occurrences" | ["CalledBy"]}]}] | ["CalledBy"]}]}],"occurrences":"u1"
value at "/lanes/0/0/unit/records/0/occurrences/0/relations" | ["CalledBy"]}] | ["CalledBy"]}],"relations":null
accepted | "def" | "refs"
accepted | {"do":"collect"} | {"do":"poll"}"#;

/// Scripts, each with what it is or why it is refused. A value that breaks a rule stands beside one of a later field, whose fault isn't answered.
/// The last ones are scripts of whole runs, the example of docs/FORMATS.md with its refusals, and scripts of the least and greatest numbers.
const SCRIPTS: &str = r##"{"format":1,"lanes":[]} | Script { lanes: [], order: [] }
{"lanes":[[],[]],"order":[1,0,1],"format":2} | Script { lanes: [[], []], order: [1, 0, 1] }
{"format":1,"lanes":[[{"do":"build","unit":{"output":"o"}}]]} | Script { lanes: [[Build(UnitPlan { output: "o", main: "", module: "", system: false, units: [], records: [], files: [], includes: [] })]], order: [] }
{"format":1,"lanes":[[{"do":"build","unit":{"output":"o","records":[{"path":"p"}],"files":[{"path":"f"}]}}]]} | Script { lanes: [[Build(UnitPlan { output: "o", main: "", module: "", system: false, units: [], records: [RecordPlan { format: One, path: "p", system: false, symbols: [], occurrences: [] }], files: [FilePlan { path: "f", system: false }], includes: [] })]], order: [] }
{"format":1,"lanes":[[{"do":"build","unit":{"output":"o","records":[{"path":"p","symbols":[{"usr":"u"}],"occurrences":[{"usr":"u","line":4294967295,"col":1,"roles":["Call"]}]}]}}]]} | Script { lanes: [[Build(UnitPlan { output: "o", main: "", module: "", system: false, units: [], records: [RecordPlan { format: One, path: "p", system: false, symbols: [SymbolPlan { usr: "u", name: "", kind: Kind { code: 0 }, lang: Lang { code: 100 }, props: Props { bits: 0 }, codegen: "" }], occurrences: [OccurrencePlan { usr: "u", line: 4294967295, col: 1, roles: Roles { bits: 32 }, relations: [] }] }], files: [], includes: [] })]], order: [] }
{"format":2,"lanes":[[{"do":"build","unit":{"output":"o","main":"","module":"","units":[],"records":[],"files":[],"includes":[]}}]]} | Script { lanes: [[Build(UnitPlan { output: "o", main: "", module: "", system: false, units: [], records: [], files: [], includes: [] })]], order: [] }
{"format":2,"lanes":[[{"do":"build","unit":{"output":"o","records":[{"path":"p","symbols":[{"usr":"u","name":"","props":[],"codegen":""}],"occurrences":[]}]}}]]} | Script { lanes: [[Build(UnitPlan { output: "o", main: "", module: "", system: false, units: [], records: [RecordPlan { format: Two, path: "p", system: false, symbols: [SymbolPlan { usr: "u", name: "", kind: Kind { code: 0 }, lang: Lang { code: 100 }, props: Props { bits: 0 }, codegen: "" }], occurrences: [] }], files: [], includes: [] })]], order: [] }
{"format":1,"lanes":[[{"do":"ask","query":"name","name":""}]]} | Script { lanes: [[Ask(Name { name: "" })]], order: [] }
{"format":1,"lanes":[[{"do":"ask","query":"pattern","text":"t"},{"do":"ask","query":"pattern","text":"t","start":true},{"do":"ask","query":"pattern","text":"t","end":true},{"do":"ask","query":"pattern","text":"t","fold":true}]]} | Script { lanes: [[Ask(Pattern { text: "t", start: false, end: false, fold: false }), Ask(Pattern { text: "t", start: true, end: false, fold: false }), Ask(Pattern { text: "t", start: false, end: true, fold: false }), Ask(Pattern { text: "t", start: false, end: false, fold: true })]], order: [] }
{"format":1,"lanes":[[{"do":"make","output":"a","do":"remove","output":"b"}]]} | Script { lanes: [[Remove("b")]], order: [] }
{"format":1,"lanes":[[{"do":"poll"},{"do":"poll"}]]} | Script { lanes: [[Poll, Poll]], order: [] }
[] | value at ""
{"format":7,"lanes":7} | value at "/format"
{"format":1,"lanes":7,"order":7} | value at "/lanes"
{"format":1} | field at "/lanes"
{"format":1,"order":7,"lanes":[]} | value at "/order"
{"format":1,"lanes":[7]} | value at "/lanes/0"
{"format":1,"order":[2],"lanes":[[{"do":"poll"}],[{"do":"poll"}]]} | value at "/order/0"
{"format":1,"lanes":[[{"do":"poll"}],[{"do":"poll"}],[{"do":"poll"}]]} | second polling lane 1
{"format":1,"lanes":[[],[{"do":"poll"}],[],[{"do":"poll"}],[{"do":"poll"}]]} | second polling lane 3
{"format":1,"lanes":[[{"x":1}]]} | field at "/lanes/0/0/do"
{"format":1,"lanes":[[{"do":7,"x":1}]]} | value at "/lanes/0/0/do"
{"format":1,"lanes":[[{"do":"build"}]]} | field at "/lanes/0/0/unit"
{"format":1,"lanes":[[{"do":"build","unit":7}]]} | value at "/lanes/0/0/unit"
{"format":1,"lanes":[[{"do":"build","unit":{}}]]} | field at "/lanes/0/0/unit/output"
{"format":1,"lanes":[[{"do":"ask","query":"codegen","codegen":"c"}]]} | value at "/lanes/0/0/query"
{"format":1,"lanes":[[{"do":"ask","query":7,"x":1}]]} | value at "/lanes/0/0/query"
{"format":1,"lanes":[[{"do":"build","unit":{"output":"o","records":[{"path":"p","symbols":[{"usr":"u","codegen":""}]}]}}]]} | field at "/lanes/0/0/unit/records/0/symbols/0"
{"format":1,"lanes":[[{"do":"build","unit":{"main":7,"output":7}}]]} | value at "/lanes/0/0/unit/output"
{"format":1,"lanes":[[{"do":"build","unit":{"output":"o","module":7,"main":7}}]]} | value at "/lanes/0/0/unit/main"
{"format":1,"lanes":[[{"do":"build","unit":{"output":"o","system":7,"module":7}}]]} | value at "/lanes/0/0/unit/module"
{"format":1,"lanes":[[{"do":"build","unit":{"output":"o","units":7,"system":7}}]]} | value at "/lanes/0/0/unit/system"
{"format":1,"lanes":[[{"do":"build","unit":{"output":"o","records":7,"units":7}}]]} | value at "/lanes/0/0/unit/units"
{"format":1,"lanes":[[{"do":"build","unit":{"output":"o","files":7,"records":7}}]]} | value at "/lanes/0/0/unit/records"
{"format":1,"lanes":[[{"do":"build","unit":{"output":"o","includes":7,"files":7}}]]} | value at "/lanes/0/0/unit/files"
{"format":1,"lanes":[[{"do":"build","unit":{"output":"o","records":[{"system":7,"path":7}]}}]]} | value at "/lanes/0/0/unit/records/0/path"
{"format":1,"lanes":[[{"do":"build","unit":{"output":"o","records":[{"path":"p","symbols":7,"system":7}]}}]]} | value at "/lanes/0/0/unit/records/0/system"
{"format":1,"lanes":[[{"do":"build","unit":{"output":"o","records":[{"path":"p","occurrences":7,"symbols":7}]}}]]} | value at "/lanes/0/0/unit/records/0/symbols"
{"format":1,"lanes":[[{"do":"build","unit":{"output":"o","files":[{"system":7,"path":7}]}}]]} | value at "/lanes/0/0/unit/files/0/path"
{"format":1,"lanes":[[{"do":"build","unit":{"output":"o","includes":[{"line":0,"from":7}]}}]]} | value at "/lanes/0/0/unit/includes/0/from"
{"format":1,"lanes":[[{"do":"build","unit":{"output":"o","includes":[{"from":"a","to":7,"line":0}]}}]]} | value at "/lanes/0/0/unit/includes/0/line"
{"format":2,"lanes":[[{"do":"build","unit":{"output":"o","records":[{"path":"p","symbols":[{"name":7,"usr":7}]}]}}]]} | value at "/lanes/0/0/unit/records/0/symbols/0/usr"
{"format":2,"lanes":[[{"do":"build","unit":{"output":"o","records":[{"path":"p","symbols":[{"usr":"u","kind":7,"name":7}]}]}}]]} | value at "/lanes/0/0/unit/records/0/symbols/0/name"
{"format":2,"lanes":[[{"do":"build","unit":{"output":"o","records":[{"path":"p","symbols":[{"usr":"u","lang":7,"kind":7}]}]}}]]} | value at "/lanes/0/0/unit/records/0/symbols/0/kind"
{"format":2,"lanes":[[{"do":"build","unit":{"output":"o","records":[{"path":"p","symbols":[{"usr":"u","props":7,"lang":7}]}]}}]]} | value at "/lanes/0/0/unit/records/0/symbols/0/lang"
{"format":2,"lanes":[[{"do":"build","unit":{"output":"o","records":[{"path":"p","symbols":[{"usr":"u","codegen":7,"props":7}]}]}}]]} | value at "/lanes/0/0/unit/records/0/symbols/0/props"
{"format":1,"lanes":[[{"do":"build","unit":{"output":"o","records":[{"path":"p","symbols":[{"usr":"u"}],"occurrences":[{"line":0,"usr":7}]}]}}]]} | value at "/lanes/0/0/unit/records/0/occurrences/0/usr"
{"format":1,"lanes":[[{"do":"build","unit":{"output":"o","records":[{"path":"p","symbols":[{"usr":"u"}],"occurrences":[{"usr":"u","col":0,"line":0}]}]}}]]} | value at "/lanes/0/0/unit/records/0/occurrences/0/line"
{"format":1,"lanes":[[{"do":"build","unit":{"output":"o","records":[{"path":"p","symbols":[{"usr":"u"}],"occurrences":[{"usr":"u","line":1,"roles":7,"col":0}]}]}}]]} | value at "/lanes/0/0/unit/records/0/occurrences/0/col"
{"format":1,"lanes":[[{"do":"build","unit":{"output":"o","records":[{"path":"p","symbols":[{"usr":"u"}],"occurrences":[{"usr":"u","line":1,"col":1,"relations":7,"roles":7}]}]}}]]} | value at "/lanes/0/0/unit/records/0/occurrences/0/roles"
{"format":1,"lanes":[[{"do":"build","unit":{"output":"o","records":[{"path":"p","symbols":[{"usr":"u"}],"occurrences":[{"usr":"u","line":1,"col":1,"roles":["Call"],"relations":[{"roles":7,"usr":7}]}]}]}}]]} | value at "/lanes/0/0/unit/records/0/occurrences/0/relations/0/usr"
{"format":1,"lanes":[[{"do":"ask","query":"occ","roles":7,"usr":7}]]} | value at "/lanes/0/0/usr"
{"format":1,"lanes":[[{"do":"ask","query":"rel","roles":7,"usr":7}]]} | value at "/lanes/0/0/usr"
{"format":1,"lanes":[[{"do":"ask","query":"pattern","start":7,"text":7}]]} | value at "/lanes/0/0/text"
{"format":1,"lanes":[[{"do":"ask","query":"pattern","text":"t","end":7,"start":7}]]} | value at "/lanes/0/0/start"
{"format":1,"lanes":[[{"do":"ask","query":"pattern","text":"t","fold":7,"end":7}]]} | value at "/lanes/0/0/end"
{"format":1,"lanes":[[{"do":"ask","query":"incoming","depth":0,"usr":7}]]} | value at "/lanes/0/0/usr"
{"format":1,"lanes":[[{"do":"ask"}]]} | field at "/lanes/0/0/query"
{"format":1,"lanes":[[{"do":"build","unit":{"output":"abc","main":"a.swift","module":"M","records":[{"path":"a.swift","symbols":[{"usr":"s:1MA","name":"A","kind":"Struct"}],"occurrences":[{"usr":"s:1MA","line":1,"col":8,"roles":["Definition"]}]}]}},{"do":"poll"},{"do":"refresh"},{"do":"ask","query":"def","usr":"s:1MA"}]]} | Script { lanes: [[Build(UnitPlan { output: "abc", main: "a.swift", module: "M", system: false, units: [], records: [RecordPlan { format: One, path: "a.swift", system: false, symbols: [SymbolPlan { usr: "s:1MA", name: "A", kind: Kind { code: 6 }, lang: Lang { code: 100 }, props: Props { bits: 0 }, codegen: "" }], occurrences: [OccurrencePlan { usr: "s:1MA", line: 1, col: 8, roles: Roles { bits: 2 }, relations: [] }] }], files: [], includes: [] }), Poll, Refresh, Ask(Def { usr: "s:1MA" })]], order: [] }
{"format":1,"lanes":[[{"do":"ask","query":"def","usr":"s:1MA"}]]} | Script { lanes: [[Ask(Def { usr: "s:1MA" })]], order: [] }
{"format":1,"lanes":[[{"do":"refresh"},{"do":"ask","query":"def","usr":"s:1MA"}]]} | Script { lanes: [[Refresh, Ask(Def { usr: "s:1MA" })]], order: [] }
{"format":1,"lanes":[[{"do":"build","unit":{"output":"abc","main":"a.swift","module":"M","records":[{"path":"a.swift","symbols":[{"usr":"s:1MA","name":"A","kind":"Struct"}],"occurrences":[{"usr":"s:1MA","line":1,"col":8,"roles":["Definition"]}]}]}},{"do":"build","unit":{"output":"abd","main":"a.swift","module":"M","records":[{"path":"a.swift","symbols":[{"usr":"s:1MA","name":"A","kind":"Struct"}],"occurrences":[{"usr":"s:1MA","line":1,"col":8,"roles":["Definition"]}]}]}},{"do":"poll"},{"do":"ask","query":"def","usr":"s:1MA"}]]} | Script { lanes: [[Build(UnitPlan { output: "abc", main: "a.swift", module: "M", system: false, units: [], records: [RecordPlan { format: One, path: "a.swift", system: false, symbols: [SymbolPlan { usr: "s:1MA", name: "A", kind: Kind { code: 6 }, lang: Lang { code: 100 }, props: Props { bits: 0 }, codegen: "" }], occurrences: [OccurrencePlan { usr: "s:1MA", line: 1, col: 8, roles: Roles { bits: 2 }, relations: [] }] }], files: [], includes: [] }), Build(UnitPlan { output: "abd", main: "a.swift", module: "M", system: false, units: [], records: [RecordPlan { format: One, path: "a.swift", system: false, symbols: [SymbolPlan { usr: "s:1MA", name: "A", kind: Kind { code: 6 }, lang: Lang { code: 100 }, props: Props { bits: 0 }, codegen: "" }], occurrences: [OccurrencePlan { usr: "s:1MA", line: 1, col: 8, roles: Roles { bits: 2 }, relations: [] }] }], files: [], includes: [] }), Poll, Ask(Def { usr: "s:1MA" })]], order: [] }
{"format":1,"lanes":[[{"do":"build","unit":{"output":"abc","main":"a.swift","module":"M","records":[{"path":"a.swift","symbols":[{"usr":"s:1MA","name":"A","kind":"Struct"}],"occurrences":[{"usr":"s:1MA","line":1,"col":8,"roles":["Definition"]}]}]}}],[{"do":"collect"}]],"order":[0,0,1,0,0]} | Script { lanes: [[Build(UnitPlan { output: "abc", main: "a.swift", module: "M", system: false, units: [], records: [RecordPlan { format: One, path: "a.swift", system: false, symbols: [SymbolPlan { usr: "s:1MA", name: "A", kind: Kind { code: 6 }, lang: Lang { code: 100 }, props: Props { bits: 0 }, codegen: "" }], occurrences: [OccurrencePlan { usr: "s:1MA", line: 1, col: 8, roles: Roles { bits: 2 }, relations: [] }] }], files: [], includes: [] })], [Collect]], order: [0, 0, 1, 0, 0] }
{"format":1,"lanes":[[{"do":"build","unit":{"output":"abc","main":"a.swift","module":"M","records":[{"path":"a.swift","symbols":[{"usr":"s:1MA","name":"A","kind":"Struct"}],"occurrences":[{"usr":"s:1MA","line":1,"col":8,"roles":["Definition"]}]}]}},{"do":"poll"},{"do":"build","unit":{"output":"abc","main":"a.swift","module":"M","records":[{"path":"a.swift","symbols":[{"usr":"s:1MA","name":"A","kind":"Struct"}],"occurrences":[{"usr":"s:1MA","line":2,"col":8,"roles":["Definition"]}]}]}},{"do":"poll"},{"do":"collect"},{"do":"collect"},{"do":"collect"}],[{"do":"refresh"},{"do":"ask","query":"def","usr":"s:1MA"},{"do":"release"}]],"order":[0,0,0,0,0,0,0,1,0,0,0,0,0,0,0,0,0,1,1,0]} | Script { lanes: [[Build(UnitPlan { output: "abc", main: "a.swift", module: "M", system: false, units: [], records: [RecordPlan { format: One, path: "a.swift", system: false, symbols: [SymbolPlan { usr: "s:1MA", name: "A", kind: Kind { code: 6 }, lang: Lang { code: 100 }, props: Props { bits: 0 }, codegen: "" }], occurrences: [OccurrencePlan { usr: "s:1MA", line: 1, col: 8, roles: Roles { bits: 2 }, relations: [] }] }], files: [], includes: [] }), Poll, Build(UnitPlan { output: "abc", main: "a.swift", module: "M", system: false, units: [], records: [RecordPlan { format: One, path: "a.swift", system: false, symbols: [SymbolPlan { usr: "s:1MA", name: "A", kind: Kind { code: 6 }, lang: Lang { code: 100 }, props: Props { bits: 0 }, codegen: "" }], occurrences: [OccurrencePlan { usr: "s:1MA", line: 2, col: 8, roles: Roles { bits: 2 }, relations: [] }] }], files: [], includes: [] }), Poll, Collect, Collect, Collect], [Refresh, Ask(Def { usr: "s:1MA" }), Release]], order: [0, 0, 0, 0, 0, 0, 0, 1, 0, 0, 0, 0, 0, 0, 0, 0, 0, 1, 1, 0] }
{"format":1,"lanes":[[{"do":"build","unit":{"output":"abc","main":"a.swift","module":"M","records":[{"path":"a.swift","symbols":[{"usr":"s:1MA","name":"A","kind":"Struct"}],"occurrences":[{"usr":"s:1MA","line":1,"col":8,"roles":["Definition"]}]}]}},{"do":"poll"}],[{"do":"build","unit":{"output":"abc","main":"a.swift","module":"M","records":[{"path":"a.swift","symbols":[{"usr":"s:1MA","name":"A","kind":"Struct"}],"occurrences":[{"usr":"s:1MA","line":2,"col":8,"roles":["Definition"]}]}]}},{"do":"collect"}]],"order":[0,0,0,0,0,1,1,1,1,1]} | Script { lanes: [[Build(UnitPlan { output: "abc", main: "a.swift", module: "M", system: false, units: [], records: [RecordPlan { format: One, path: "a.swift", system: false, symbols: [SymbolPlan { usr: "s:1MA", name: "A", kind: Kind { code: 6 }, lang: Lang { code: 100 }, props: Props { bits: 0 }, codegen: "" }], occurrences: [OccurrencePlan { usr: "s:1MA", line: 1, col: 8, roles: Roles { bits: 2 }, relations: [] }] }], files: [], includes: [] }), Poll], [Build(UnitPlan { output: "abc", main: "a.swift", module: "M", system: false, units: [], records: [RecordPlan { format: One, path: "a.swift", system: false, symbols: [SymbolPlan { usr: "s:1MA", name: "A", kind: Kind { code: 6 }, lang: Lang { code: 100 }, props: Props { bits: 0 }, codegen: "" }], occurrences: [OccurrencePlan { usr: "s:1MA", line: 2, col: 8, roles: Roles { bits: 2 }, relations: [] }] }], files: [], includes: [] }), Collect]], order: [0, 0, 0, 0, 0, 1, 1, 1, 1, 1] }
{"format":1,"lanes":[[{"do":"build","unit":{"output":"abc","main":"a.swift","module":"M","records":[{"path":"a.swift","symbols":[{"usr":"s:1MA","name":"A","kind":"Struct"}],"occurrences":[{"usr":"s:1MA","line":1,"col":8,"roles":["Definition"]}]}]}},{"do":"build","unit":{"output":"abd","main":"a.swift","module":"M","records":[{"path":"a.swift","symbols":[{"usr":"s:1MA","name":"A","kind":"Struct"}],"occurrences":[{"usr":"s:1MA","line":1,"col":8,"roles":["Definition"]}]}]}}]]} | Script { lanes: [[Build(UnitPlan { output: "abc", main: "a.swift", module: "M", system: false, units: [], records: [RecordPlan { format: One, path: "a.swift", system: false, symbols: [SymbolPlan { usr: "s:1MA", name: "A", kind: Kind { code: 6 }, lang: Lang { code: 100 }, props: Props { bits: 0 }, codegen: "" }], occurrences: [OccurrencePlan { usr: "s:1MA", line: 1, col: 8, roles: Roles { bits: 2 }, relations: [] }] }], files: [], includes: [] }), Build(UnitPlan { output: "abd", main: "a.swift", module: "M", system: false, units: [], records: [RecordPlan { format: One, path: "a.swift", system: false, symbols: [SymbolPlan { usr: "s:1MA", name: "A", kind: Kind { code: 6 }, lang: Lang { code: 100 }, props: Props { bits: 0 }, codegen: "" }], occurrences: [OccurrencePlan { usr: "s:1MA", line: 1, col: 8, roles: Roles { bits: 2 }, relations: [] }] }], files: [], includes: [] })]], order: [] }
{"format":1,"lanes":[[{"do":"build","unit":{"output":"abc","main":"a.swift","module":"M","records":[{"path":"a.swift","symbols":[{"usr":"s:1MA","name":"A","kind":"Struct"}],"occurrences":[{"usr":"s:1MA","line":1,"col":8,"roles":["Definition"]}]}]}},{"do":"build","unit":{"output":"abc","main":"a.swift","module":"M","records":[{"path":"a.swift","symbols":[{"usr":"s:1MA","name":"A","kind":"Struct"}],"occurrences":[{"usr":"s:1MA","line":2,"col":8,"roles":["Definition"]}]}]}},{"do":"collect"},{"do":"collect"}]]} | Script { lanes: [[Build(UnitPlan { output: "abc", main: "a.swift", module: "M", system: false, units: [], records: [RecordPlan { format: One, path: "a.swift", system: false, symbols: [SymbolPlan { usr: "s:1MA", name: "A", kind: Kind { code: 6 }, lang: Lang { code: 100 }, props: Props { bits: 0 }, codegen: "" }], occurrences: [OccurrencePlan { usr: "s:1MA", line: 1, col: 8, roles: Roles { bits: 2 }, relations: [] }] }], files: [], includes: [] }), Build(UnitPlan { output: "abc", main: "a.swift", module: "M", system: false, units: [], records: [RecordPlan { format: One, path: "a.swift", system: false, symbols: [SymbolPlan { usr: "s:1MA", name: "A", kind: Kind { code: 6 }, lang: Lang { code: 100 }, props: Props { bits: 0 }, codegen: "" }], occurrences: [OccurrencePlan { usr: "s:1MA", line: 2, col: 8, roles: Roles { bits: 2 }, relations: [] }] }], files: [], includes: [] }), Collect, Collect]], order: [] }
{"format":1,"lanes":[[{"do":"collect"},{"do":"build","unit":{"output":"abc","main":"a.swift","module":"M","records":[{"path":"a.swift","symbols":[{"usr":"s:1MA","name":"A","kind":"Struct"}],"occurrences":[{"usr":"s:1MA","line":1,"col":8,"roles":["Definition"]}]}]}},{"do":"collect"}]]} | Script { lanes: [[Collect, Build(UnitPlan { output: "abc", main: "a.swift", module: "M", system: false, units: [], records: [RecordPlan { format: One, path: "a.swift", system: false, symbols: [SymbolPlan { usr: "s:1MA", name: "A", kind: Kind { code: 6 }, lang: Lang { code: 100 }, props: Props { bits: 0 }, codegen: "" }], occurrences: [OccurrencePlan { usr: "s:1MA", line: 1, col: 8, roles: Roles { bits: 2 }, relations: [] }] }], files: [], includes: [] }), Collect]], order: [] }
{"format":1,"lanes":[[{"do":"remove","output":"abc"},{"do":"build","unit":{"output":"abc","main":"a.swift","module":"M","records":[{"path":"a.swift","symbols":[{"usr":"s:1MA","name":"A","kind":"Struct"}],"occurrences":[{"usr":"s:1MA","line":1,"col":8,"roles":["Definition"]}]}]}},{"do":"remove","output":"abc"},{"do":"remove","output":"abc"}]]} | Script { lanes: [[Remove("abc"), Build(UnitPlan { output: "abc", main: "a.swift", module: "M", system: false, units: [], records: [RecordPlan { format: One, path: "a.swift", system: false, symbols: [SymbolPlan { usr: "s:1MA", name: "A", kind: Kind { code: 6 }, lang: Lang { code: 100 }, props: Props { bits: 0 }, codegen: "" }], occurrences: [OccurrencePlan { usr: "s:1MA", line: 1, col: 8, roles: Roles { bits: 2 }, relations: [] }] }], files: [], includes: [] }), Remove("abc"), Remove("abc")]], order: [] }
{"format":1,"lanes":[[{"do":"build","unit":{"output":"/o/Shape.o","main":"Shape.swift","module":"App","records":[{"path":"Shape.swift","symbols":[{"usr":"s:3App5ShapeC","name":"Shape","kind":"Class"},{"usr":"s:3App5ShapeC4areaSiyF","name":"area()","kind":"InstanceMethod"}],"occurrences":[{"usr":"s:3App5ShapeC","line":1,"col":7,"roles":["Definition"]},{"usr":"s:3App5ShapeC4areaSiyF","line":2,"col":8,"roles":["Definition"],"relations":[{"usr":"s:3App5ShapeC","roles":["ChildOf"]}]}]}]}},{"do":"build","unit":{"output":"/o/Circle.o","main":"Circle.swift","module":"App","units":["/o/Shape.o"],"records":[{"path":"Circle.swift","symbols":[{"usr":"s:3App6CircleC","name":"Circle","kind":"Class"},{"usr":"s:3App6CircleC4areaSiyF","name":"area()","kind":"InstanceMethod"},{"usr":"s:3App5ShapeC","name":"Shape","kind":"Class"},{"usr":"s:3App5ShapeC4areaSiyF","name":"area()","kind":"InstanceMethod"},{"usr":"c:@F@clamp","name":"clamp","kind":"Function","lang":"C"}],"occurrences":[{"usr":"s:3App6CircleC","line":1,"col":7,"roles":["Definition"]},{"usr":"s:3App5ShapeC","line":1,"col":15,"roles":["Reference"],"relations":[{"usr":"s:3App6CircleC","roles":["BaseOf"]}]},{"usr":"s:3App6CircleC4areaSiyF","line":2,"col":17,"roles":["Definition"],"relations":[{"usr":"s:3App6CircleC","roles":["ChildOf"]},{"usr":"s:3App5ShapeC4areaSiyF","roles":["OverrideOf"]}]},{"usr":"c:@F@clamp","line":3,"col":12,"roles":["Reference","Call"],"relations":[{"usr":"s:3App6CircleC4areaSiyF","roles":["CalledBy","ContainedBy"]}]}]},{"path":"util.h","symbols":[{"usr":"c:@F@clamp","name":"clamp","kind":"Function","lang":"C"}],"occurrences":[{"usr":"c:@F@clamp","line":4,"col":5,"roles":["Declaration"]}]}]}},{"do":"build","unit":{"output":"/o/main.o","main":"main.swift","module":"App","units":["/o/Shape.o","/o/Circle.o"],"records":[{"path":"main.swift","symbols":[{"usr":"s:3App4mainyyF","name":"main()","kind":"Function"},{"usr":"s:3App6CircleC","name":"Circle","kind":"Class"},{"usr":"s:3App5ShapeC4areaSiyF","name":"area()","kind":"InstanceMethod"}],"occurrences":[{"usr":"s:3App4mainyyF","line":1,"col":6,"roles":["Definition"]},{"usr":"s:3App6CircleC","line":2,"col":13,"roles":["Reference"],"relations":[{"usr":"s:3App4mainyyF","roles":["ContainedBy"]}]},{"usr":"s:3App5ShapeC4areaSiyF","line":3,"col":9,"roles":["Reference","Call","Dynamic"],"relations":[{"usr":"s:3App4mainyyF","roles":["CalledBy","ContainedBy"]}]}]},{"path":"util.h","symbols":[{"usr":"c:@F@clamp","name":"clamp","kind":"Function","lang":"C"}],"occurrences":[{"usr":"c:@F@clamp","line":4,"col":5,"roles":["Declaration"]}]}]}},{"do":"poll"},{"do":"ask","query":"def","usr":"c:@F@clamp"},{"do":"ask","query":"refs","usr":"s:3App5ShapeC"},{"do":"ask","query":"overrides","usr":"s:3App5ShapeC4areaSiyF"},{"do":"ask","query":"callers","usr":"c:@F@clamp"},{"do":"ask","query":"supertypes","usr":"s:3App6CircleC","depth":2},{"do":"ask","query":"mains","path":"util.h"},{"do":"ask","query":"pattern","text":"area","start":true}]]} | accepted
{"format":1,"lanes":[[{"do":"build","unit":{"output":"/o/Shape.o","main":"Shape.swift","module":"App","records":[{"path":"Shape.swift","symbols":[{"usr":"s:3App5ShapeC","name":"Shape","kind":"Class"},{"usr":"s:3App5ShapeC4areaSiyF","name":"area()","kind":"InstanceMethod"}],"occurrences":[{"usr":"s:3App5ShapeC","line":1,"col":7,"roles":["Definition"]},{"usr":"s:3App5ShapeC4areaSiyF","line":2,"col":8,"roles":["Definition"],"relations":[{"usr":"s:3App5ShapeC","roles":["ChildOf"]}]}]}]}},{"do":"build","unit":{"output":"/o/Circle.o","main":"Circle.swift","module":"App","units":["/o/Shape.o"],"records":[{"path":"Circle.swift","symbols":[{"usr":"s:3App6CircleC","name":"Circle","kind":"Class"},{"usr":"s:3App6CircleC4areaSiyF","name":"area()","kind":"InstanceMethod"},{"usr":"s:3App5ShapeC","name":"Shape","kind":"Class"},{"usr":"s:3App5ShapeC4areaSiyF","name":"area()","kind":"InstanceMethod"},{"usr":"c:@F@clamp","name":"clamp","kind":"Function","lang":"C"}],"occurrences":[{"usr":"s:3App6CircleC","line":1,"col":7,"roles":["Definition"]},{"usr":"s:3App5ShapeC","line":1,"col":15,"roles":["Reference"],"relations":[{"usr":"s:3App6CircleC","roles":["BaseOf"]}]},{"usr":"s:3App6CircleC4areaSiyF","line":2,"col":17,"roles":["Definition"],"relations":[{"usr":"s:3App6CircleC","roles":["ChildOf"]},{"usr":"s:3App5ShapeC4areaSiyF","roles":["OverrideOf"]}]},{"usr":"c:@F@clamp","line":3,"col":12,"roles":["Reference","Call"],"relations":[{"usr":"s:3App6CircleC4areaSiyF","roles":["CalledBy","ContainedBy"]}]}]},{"path":"util.h","symbols":[{"usr":"c:@F@clamp","name":"clamp","kind":"Function","lang":"C"}],"occurrences":[{"usr":"c:@F@clamp","line":4,"col":5,"roles":["Declaration"]}]}]}},{"do":"build","unit":{"output":"/o/main.o","main":"main.swift","module":"App","units":["/o/Shape.o","/o/Circle.o"],"records":[{"path":"main.swift","symbols":[{"usr":"s:3App4mainyyF","name":"main()","kind":"Function"},{"usr":"s:3App6CircleC","name":"Circle","kind":"Class"},{"usr":"s:3App5ShapeC4areaSiyF","name":"area()","kind":"InstanceMethod"}],"occurrences":[{"usr":"s:3App4mainyyF","line":1,"col":6,"roles":["Definition"]},{"usr":"s:3App6CircleC","line":2,"col":13,"roles":["Reference"],"relations":[{"usr":"s:3App4mainyyF","roles":["ContainedBy"]}]},{"usr":"s:3App5ShapeC4areaSiyF","line":3,"col":9,"roles":["Reference","Call","Dynamic"],"relations":[{"usr":"s:3App4mainyyF","roles":["CalledBy","ContainedBy"]}]}]},{"path":"util.h","symbols":[{"usr":"c:@F@clamp","name":"clamp","kind":"Function","lang":"C"}],"occurrences":[{"usr":"c:@F@clamp","line":4,"col":5,"roles":["Declaration"]}]}]}},{"do":"poll"},{"do":"ask","query":"def","usr":"c:@F@clamp"},{"do":"ask","query":"refs","usr":"s:3App5ShapeC"},{"do":"ask","query":"overrides","usr":"s:3App5ShapeC4areaSiyF"},{"do":"ask","query":"callers","usr":"c:@F@clamp"},{"do":"ask","query":"mains","path":"util.h"},{"do":"ask","query":"pattern","text":"area","start":true}]]} | accepted
{"format":1,"lanes":[[{"do":"build","unit":{"output":"x","records":[{"path":"r.swift","symbols":[{"usr":"s:f","kind":"Function"},{"usr":"s:g","kind":"Function"}],"occurrences":[{"usr":"s:f","line":1,"col":6,"roles":["Definition"]},{"usr":"s:g","line":2,"col":3,"roles":["Reference","Call"],"relations":[{"usr":"s:f","roles":["CalledBy"]}]},{"usr":"s:f","line":3,"col":3,"roles":["Reference","Call"],"relations":[{"usr":"s:f","roles":["CalledBy"]}]},{"usr":"s:g","line":5,"col":6,"roles":["Definition"]},{"usr":"s:f","line":6,"col":3,"roles":["Reference","Call"],"relations":[{"usr":"s:g","roles":["CalledBy"]}]}]}]}},{"do":"poll"},{"do":"ask","query":"incoming","usr":"s:f","depth":16}]]} | Script { lanes: [[Build(UnitPlan { output: "x", main: "", module: "", system: false, units: [], records: [RecordPlan { format: One, path: "r.swift", system: false, symbols: [SymbolPlan { usr: "s:f", name: "", kind: Kind { code: 12 }, lang: Lang { code: 100 }, props: Props { bits: 0 }, codegen: "" }, SymbolPlan { usr: "s:g", name: "", kind: Kind { code: 12 }, lang: Lang { code: 100 }, props: Props { bits: 0 }, codegen: "" }], occurrences: [OccurrencePlan { usr: "s:f", line: 1, col: 6, roles: Roles { bits: 2 }, relations: [] }, OccurrencePlan { usr: "s:g", line: 2, col: 3, roles: Roles { bits: 36 }, relations: [RelationPlan { usr: "s:f", roles: Roles { bits: 8192 } }] }, OccurrencePlan { usr: "s:f", line: 3, col: 3, roles: Roles { bits: 36 }, relations: [RelationPlan { usr: "s:f", roles: Roles { bits: 8192 } }] }, OccurrencePlan { usr: "s:g", line: 5, col: 6, roles: Roles { bits: 2 }, relations: [] }, OccurrencePlan { usr: "s:f", line: 6, col: 3, roles: Roles { bits: 36 }, relations: [RelationPlan { usr: "s:g", roles: Roles { bits: 8192 } }] }] }], files: [], includes: [] }), Poll, Ask(Incoming { usr: "s:f", depth: 16 })]], order: [] }
{"format":1,"lanes":[[{"do":"release"}],[{"do":"collect"}]],"order":[0,0,0,1]} | Script { lanes: [[Release], [Collect]], order: [0, 0, 0, 1] }
{"format":1,"lanes":[[{"do":"release"}],[{"do":"collect"}]],"order":[1]} | Script { lanes: [[Release], [Collect]], order: [1] }
{"format":1,"lanes":[[{"do":"build","unit":{"output":"abc","main":"a.swift","module":"M","records":[{"path":"a.swift","symbols":[{"usr":"s:1MA","name":"A","kind":"Struct"}],"occurrences":[{"usr":"s:1MA","line":1,"col":8,"roles":["Definition"]}]}]}},{"do":"poll"},{"do":"ask","query":"def","usr":"s:1MA"}]]} | Script { lanes: [[Build(UnitPlan { output: "abc", main: "a.swift", module: "M", system: false, units: [], records: [RecordPlan { format: One, path: "a.swift", system: false, symbols: [SymbolPlan { usr: "s:1MA", name: "A", kind: Kind { code: 6 }, lang: Lang { code: 100 }, props: Props { bits: 0 }, codegen: "" }], occurrences: [OccurrencePlan { usr: "s:1MA", line: 1, col: 8, roles: Roles { bits: 2 }, relations: [] }] }], files: [], includes: [] }), Poll, Ask(Def { usr: "s:1MA" })]], order: [] }
{"format":2,"lanes":[[{"do":"build","unit":{"output":"abc","main":"a.swift","module":"M","records":[{"path":"a.swift","symbols":[{"usr":"s:1MA","name":"A","kind":"Struct","codegen":"$s1MAV"}],"occurrences":[{"usr":"s:1MA","line":1,"col":8,"roles":["Definition"]}]}]}},{"do":"poll"},{"do":"ask","query":"codegen","codegen":"$s1MAV"}]]} | Script { lanes: [[Build(UnitPlan { output: "abc", main: "a.swift", module: "M", system: false, units: [], records: [RecordPlan { format: Two, path: "a.swift", system: false, symbols: [SymbolPlan { usr: "s:1MA", name: "A", kind: Kind { code: 6 }, lang: Lang { code: 100 }, props: Props { bits: 0 }, codegen: "$s1MAV" }], occurrences: [OccurrencePlan { usr: "s:1MA", line: 1, col: 8, roles: Roles { bits: 2 }, relations: [] }] }], files: [], includes: [] }), Poll, Ask(Codegen { codegen: "$s1MAV" })]], order: [] }
{"format":1,"lanes":[[{"do":"build","unit":{"output":"abc","main":"a.swift","module":"M","records":[{"path":"a.swift","symbols":[{"usr":"s:1MA","name":"A","kind":"Struct"}],"occurrences":[{"usr":"s:1MA","line":1,"col":8,"roles":["Definition"]}]},{"path":"b.swift","symbols":[{"usr":"s:1MA","name":"A","kind":"Struct"}],"occurrences":[{"usr":"s:1MA","line":2,"col":8,"roles":["Definition"]}]}]}}]]} | Script { lanes: [[Build(UnitPlan { output: "abc", main: "a.swift", module: "M", system: false, units: [], records: [RecordPlan { format: One, path: "a.swift", system: false, symbols: [SymbolPlan { usr: "s:1MA", name: "A", kind: Kind { code: 6 }, lang: Lang { code: 100 }, props: Props { bits: 0 }, codegen: "" }], occurrences: [OccurrencePlan { usr: "s:1MA", line: 1, col: 8, roles: Roles { bits: 2 }, relations: [] }] }, RecordPlan { format: One, path: "b.swift", system: false, symbols: [SymbolPlan { usr: "s:1MA", name: "A", kind: Kind { code: 6 }, lang: Lang { code: 100 }, props: Props { bits: 0 }, codegen: "" }], occurrences: [OccurrencePlan { usr: "s:1MA", line: 2, col: 8, roles: Roles { bits: 2 }, relations: [] }] }], files: [], includes: [] })]], order: [] }
{"format":1,"lanes":[[{"do":"build","unit":{"output":"abc","main":"a.swift","module":"M","records":[{"path":"a.swift","symbols":[{"usr":"s:1MA","name":"A","kind":"Struct"}],"occurrences":[{"usr":"s:1MA","line":2,"col":8,"roles":["Definition"]}]}]}},{"do":"remove","output":"abc"}],[{"do":"build","unit":{"output":"abd","main":"a.swift","module":"M","records":[{"path":"a.swift","symbols":[{"usr":"s:1MA","name":"A","kind":"Struct"}],"occurrences":[{"usr":"s:1MA","line":12,"col":8,"roles":["Definition"]}]}]}},{"do":"build","unit":{"output":"abd","main":"a.swift","module":"M","records":[{"path":"a.swift","symbols":[{"usr":"s:1MA","name":"A","kind":"Struct"}],"occurrences":[{"usr":"s:1MA","line":12,"col":8,"roles":["Definition"]}]}]}}]]} | Script { lanes: [[Build(UnitPlan { output: "abc", main: "a.swift", module: "M", system: false, units: [], records: [RecordPlan { format: One, path: "a.swift", system: false, symbols: [SymbolPlan { usr: "s:1MA", name: "A", kind: Kind { code: 6 }, lang: Lang { code: 100 }, props: Props { bits: 0 }, codegen: "" }], occurrences: [OccurrencePlan { usr: "s:1MA", line: 2, col: 8, roles: Roles { bits: 2 }, relations: [] }] }], files: [], includes: [] }), Remove("abc")], [Build(UnitPlan { output: "abd", main: "a.swift", module: "M", system: false, units: [], records: [RecordPlan { format: One, path: "a.swift", system: false, symbols: [SymbolPlan { usr: "s:1MA", name: "A", kind: Kind { code: 6 }, lang: Lang { code: 100 }, props: Props { bits: 0 }, codegen: "" }], occurrences: [OccurrencePlan { usr: "s:1MA", line: 12, col: 8, roles: Roles { bits: 2 }, relations: [] }] }], files: [], includes: [] }), Build(UnitPlan { output: "abd", main: "a.swift", module: "M", system: false, units: [], records: [RecordPlan { format: One, path: "a.swift", system: false, symbols: [SymbolPlan { usr: "s:1MA", name: "A", kind: Kind { code: 6 }, lang: Lang { code: 100 }, props: Props { bits: 0 }, codegen: "" }], occurrences: [OccurrencePlan { usr: "s:1MA", line: 12, col: 8, roles: Roles { bits: 2 }, relations: [] }] }], files: [], includes: [] })]], order: [] }
{"format":1,"lanes":[[{"do":"build","unit":{"output":"o27"}},{"do":"build","unit":{"output":"o37"}},{"do":"remove","output":"o37"}]]} | Script { lanes: [[Build(UnitPlan { output: "o27", main: "", module: "", system: false, units: [], records: [], files: [], includes: [] }), Build(UnitPlan { output: "o37", main: "", module: "", system: false, units: [], records: [], files: [], includes: [] }), Remove("o37")]], order: [] }
{"format":1,"lanes":[]}    | Script { lanes: [], order: [] }
{"format":1,"lanes":[[{"do":"build","unit":{"output":"abc","main":"a.swift","module":"M","records":[{"path":"a.swift","symbols":[{"usr":"s:1MA","name":"A","kind":"Struct"}],"occurrences":[{"usr":"s:1MA","line":1,"col":8,"roles":["Definition"]}]}]}}],[{"do":"refresh"},{"do":"ask","query":"def","usr":"s:1MA"},{"do":"release"}]]} | Script { lanes: [[Build(UnitPlan { output: "abc", main: "a.swift", module: "M", system: false, units: [], records: [RecordPlan { format: One, path: "a.swift", system: false, symbols: [SymbolPlan { usr: "s:1MA", name: "A", kind: Kind { code: 6 }, lang: Lang { code: 100 }, props: Props { bits: 0 }, codegen: "" }], occurrences: [OccurrencePlan { usr: "s:1MA", line: 1, col: 8, roles: Roles { bits: 2 }, relations: [] }] }], files: [], includes: [] })], [Refresh, Ask(Def { usr: "s:1MA" }), Release]], order: [] }
{"format":2,"lanes":[[{"do":"build","unit":{"output":"abc","main":"a.swift","module":"M","records":[{"path":"a.swift","symbols":[{"usr":"s:1MA","name":"A","kind":"Struct","codegen":"$s1MAV"},{"usr":"s:1MAf","name":"f()","kind":"InstanceMethod"}],"occurrences":[{"usr":"s:1MA","line":1,"col":8,"roles":["Definition"]},{"usr":"s:1MAf","line":2,"col":8,"roles":["Definition"],"relations":[{"usr":"s:1MA","roles":["ChildOf"]}]}]}]}},{"do":"poll"},{"do":"ask","query":"codegen","codegen":"$s1MAV"}],[{"do":"refresh"},{"do":"ask","query":"occ","usr":"s:1MAf","roles":["Definition"]},{"do":"release"}]],"order":[0,0,1]} | Script { lanes: [[Build(UnitPlan { output: "abc", main: "a.swift", module: "M", system: false, units: [], records: [RecordPlan { format: Two, path: "a.swift", system: false, symbols: [SymbolPlan { usr: "s:1MA", name: "A", kind: Kind { code: 6 }, lang: Lang { code: 100 }, props: Props { bits: 0 }, codegen: "$s1MAV" }, SymbolPlan { usr: "s:1MAf", name: "f()", kind: Kind { code: 16 }, lang: Lang { code: 100 }, props: Props { bits: 0 }, codegen: "" }], occurrences: [OccurrencePlan { usr: "s:1MA", line: 1, col: 8, roles: Roles { bits: 2 }, relations: [] }, OccurrencePlan { usr: "s:1MAf", line: 2, col: 8, roles: Roles { bits: 2 }, relations: [RelationPlan { usr: "s:1MA", roles: Roles { bits: 512 } }] }] }], files: [], includes: [] }), Poll, Ask(Codegen { codegen: "$s1MAV" })], [Refresh, Ask(Occ { usr: "s:1MAf", roles: Roles { bits: 2 } }), Release]], order: [0, 0, 1] }
{"format":2,"lanes":[[{"do":"build","unit":{"output":"abc","main":"a.swift","module":"M","records":[{"path":"a.swift","symbols":[{"usr":"s:1MA","name":"A","kind":"Struct","codegen":"$s1MAV"},{"usr":"s:1MAf","name":"f()","kind":"InstanceMethod"}],"occurrences":[{"usr":"s:1MA","line":1,"col":8,"roles":["Definition"]},{"usr":"s:1MAf","line":0,"col":8,"roles":["Definition"],"relations":[{"usr":"s:1MA","roles":["ChildOf"]}]}]}]}},{"do":"poll"},{"do":"ask","query":"codegen","codegen":"$s1MAV"}],[{"do":"refresh"},{"do":"ask","query":"occ","usr":"s:1MAf","roles":["Definition"]},{"do":"release"}]],"order":[0,0,1]} | value at "/lanes/0/0/unit/records/0/occurrences/1/line"
{"format":1,"lanes":[[{"do":"build","unit":{"output":"abc","main":"a.swift","module":"M","records":[{"path":"a.swift","symbols":[{"usr":"s:1MA","name":"A","kind":"Struct","codegen":"$s1MAV"},{"usr":"s:1MAf","name":"f()","kind":"InstanceMethod"}],"occurrences":[{"usr":"s:1MA","line":1,"col":8,"roles":["Definition"]},{"usr":"s:1MAf","line":2,"col":8,"roles":["Definition"],"relations":[{"usr":"s:1MA","roles":["ChildOf"]}]}]}]}},{"do":"poll"},{"do":"ask","query":"codegen","codegen":"$s1MAV"}],[{"do":"refresh"},{"do":"ask","query":"occ","usr":"s:1MAf","roles":["Definition"]},{"do":"release"}]],"order":[0,0,1]} | field at "/lanes/0/0/unit/records/0/symbols/0"
{"format":2,"lanes":[[{"do":"build","unit":{"output":"abc","main":"a.swift","module":"M","records":[{"path":"a.swift","symbols":[{"usr":"s:1MA","name":"A","kind":"Struct","codegen":"$s1MAV"},{"usr":"s:1MAf","name":"f()","kind":"InstanceMethod"}],"occurrences":[{"usr":"s:1MA","line":1,"col":8,"roles":["Definition"]},{"usr":"s:1MAf","line":2,"col":8,"roles":["Definition"],"relations":[{"usr":"s:1MA","roles":["ChildOf"]}]}]}]}},{"do":"poll"},{"do":"ask","query":"codegen","codegen":"$s1MAV"}],[{"do":"poll"},{"do":"ask","query":"occ","usr":"s:1MAf","roles":["Definition"]},{"do":"release"}]],"order":[0,0,1]} | second polling lane 1
{"format":1,"lanes":[[{"do":"ask","query":"incoming","usr":"a","depth":16}]]} | Script { lanes: [[Ask(Incoming { usr: "a", depth: 16 })]], order: [] }
{"format":1,"lanes":[[{"do":"ask","query":"incoming","usr":"a","depth":17}]]} | value at "/lanes/0/0/depth"
{"format":1,"lanes":[[{"do":"ask","query":"incoming","usr":"a","depth":0}]]} | value at "/lanes/0/0/depth"
{"format":1,"lanes":[[{"do":"build","unit":{"output":"abc","records":[{"path":"p","symbols":[{"usr":"a0"}],"occurrences":[{"usr":"a0","line":4294967295,"col":1,"roles":["Call"]}]}]}}]]} | Script { lanes: [[Build(UnitPlan { output: "abc", main: "", module: "", system: false, units: [], records: [RecordPlan { format: One, path: "p", system: false, symbols: [SymbolPlan { usr: "a0", name: "", kind: Kind { code: 0 }, lang: Lang { code: 100 }, props: Props { bits: 0 }, codegen: "" }], occurrences: [OccurrencePlan { usr: "a0", line: 4294967295, col: 1, roles: Roles { bits: 32 }, relations: [] }] }], files: [], includes: [] })]], order: [] }
{"format":1,"lanes":[[{"do":"build","unit":{"output":"abc","records":[{"path":"p","symbols":[{"usr":"a0"}],"occurrences":[{"usr":"a0","line":4294967296,"col":1,"roles":["Call"]}]}]}}]]} | value at "/lanes/0/0/unit/records/0/occurrences/0/line"
{"format":1,"lanes":[[{"do":"build","unit":{"output":"abc","records":[{"path":"p","symbols":[{"usr":"a0"}],"occurrences":[{"usr":"a0","line":1.5,"col":1,"roles":["Call"]}]}]}}]]} | value at "/lanes/0/0/unit/records/0/occurrences/0/line"
{"format":1,"lanes":[[{"do":"build","unit":{"output":"abc","records":[{"path":"p","symbols":[{"usr":"a0"}],"occurrences":[{"usr":"a0","line":0,"col":1,"roles":["Call"]}]}]}}]]} | value at "/lanes/0/0/unit/records/0/occurrences/0/line""##;

/// Asks that stand alone, each with what it is or why it is refused.
const ASKS: &str = r##"{"query":"def","usr":"u"} | Def { usr: "u" }
{"query":"codegen","codegen":"c"} | Codegen { codegen: "c" }
{"query":"rel","usr":"u","roles":["BaseOf"]} | Rel { usr: "u", roles: Roles { bits: 1024 } }
{"query":"pattern","text":"t","end":true} | Pattern { text: "t", start: false, end: true, fold: false }
{"query":"name","name":""} | Name { name: "" }
{"depth":2,"query":"subtypes","usr":"u"} | Subtypes { usr: "u", depth: 2 }
7 | value at ""
{"usr":"u"} | field at "/query"
{"query":"remove"} | value at "/query"
{"do":"ask","query":"def","usr":"u"} | field at ""
{"query":"def"} | field at "/usr"
{"query":"outgoing","usr":"u","depth":17} | value at "/depth"
{"query":"occ","usr":"u","roles":["Call","call"]} | value at "/roles/1""##;

/// So many lists, each in the one before.
const DEEP: &str =
    "[[[[[[[[[[[[[[[[[[[[[[[[[[[[[[[[[[[[[[[[[[[[[[[[[[[[[[[[[[[[[[[[[[[[[[[[[[[[[[[[[[[[[[[[[[[[[[[[[[[[[[[[[[[[[[[[[[[[[[[[[[[[[[[]]]]]]]]]]]]]]]]]]]]]]]]]]]]]]]]]]]]]]]]]]]]]]]]]]]]]]]]]]]]]]]]]]]]]]]]]]]]]]]]]]]]]]]]]]]]]]]]]]]]]]]]]]]]]]]]]]]]]]]]]]]]]]]";

/// What reading the bytes answers: the script, or why it is refused.
fn answer(rt: &impl Abort, alloc: Global, bytes: &[u8]) -> String {
    match Script::read(alloc, bytes) {
        Ok(script) => format!(in alloc; "{script:?}").expect(rt, "memory"),
        Err(error) => format!(in alloc; "{error}").expect(rt, "memory"),
    }
}

/// The same of a JSON text as an ask.
fn ask(rt: &impl Abort, alloc: Global, text: &str) -> String {
    let value = Value::from_str(alloc, text).expect(rt, "JSON");
    match read_ask(alloc, &value) {
        Ok(ask) => format!(in alloc; "{ask:?}").expect(rt, "memory"),
        Err(error) => format!(in alloc; "{error}").expect(rt, "memory"),
    }
}

/// Whether the bytes are a script.
fn is_accepted(alloc: Global, bytes: &[u8]) -> bool {
    Script::read(alloc, bytes).is_ok()
}

/// Asserts that the script is accepted, that it is this one, or that it is refused so.
fn expect(rt: &impl Abort, alloc: Global, want: &str, bytes: &[u8]) {
    if want == "accepted" {
        assert!(rt; is_accepted(alloc, bytes), "a script that is refused");
    } else {
        assert_eq!(rt; answer(rt, alloc, bytes).as_str(), want);
    }
}

/// Asserts the answer once the first `old` of the worked script is `new`.
fn expect_changed(rt: &impl Abort, alloc: Global, want: &str, old: &str, new: &str) {
    let (front, back) = WORKED.split_once(old).expect(rt, "no such part");
    let text = format!(in alloc; "{front}{new}{back}").expect(rt, "memory");
    expect(rt, alloc, want, text.as_bytes());
}

/// Adds the item with its number in the place of a `#`.
fn add_item(rt: &impl Abort, text: &mut String, item: &str, index: usize) {
    let (front, back) = item.split_once("#").unwrap_or((item, ""));
    text.push_str(front).expect(rt, "memory");
    if front.len() < item.len() {
        text.push_str(Buffer::new().format(index))
            .expect(rt, "memory");
    }
    text.push_str(back).expect(rt, "memory");
}

/// The script with so many times the item at its `@`, with commas between.
fn filled(rt: &impl Abort, alloc: Global, script: &str, item: &str, count: usize) -> String {
    let (front, back) = script.split_once("@").expect(rt, "no place");
    let mut text = String::from_str(alloc, front).expect(rt, "memory");
    for index in 0..count {
        if index > 0 {
            text.push_str(",").expect(rt, "memory");
        }
        add_item(rt, &mut text, item, index);
    }
    text.push_str(back).expect(rt, "memory");
    text
}

/// Asserts that 4,096 bytes may stand at the `@`, and that one more, of fewer characters, is refused at the place.
fn keeps_text_limit(rt: &impl Abort, alloc: Global, want: &str, script: &str) {
    // With the commas between them 241 times 17 bytes less one, and 683 times 6 less one.
    let full = filled(rt, alloc, script, "0123456789abcdef", 241);
    expect(rt, alloc, "accepted", full.as_bytes());
    let longer = filled(rt, alloc, script, "abé0", 683);
    expect(rt, alloc, want, longer.as_bytes());
}

/// Asserts that the list may have the most items, and that one more is too many by its word, also where none of them is allowed.
fn keeps_limit(
    rt: &impl Abort,
    alloc: Global,
    word: &str,
    most: usize,
    more: usize,
    item: &str,
    script: &str,
) {
    let full = filled(rt, alloc, script, item, most);
    expect(rt, alloc, "accepted", full.as_bytes());
    let want = format!(in alloc; "too many {word}").expect(rt, "memory");
    let longer = filled(rt, alloc, script, item, more);
    expect(rt, alloc, want.as_str(), longer.as_bytes());
    let worse = filled(rt, alloc, script, "7", more);
    expect(rt, alloc, want.as_str(), worse.as_bytes());
}

#[test]
fn reads_every_field(rt: HostRuntime) {
    expect(&rt, rt.alloc(), VALUE, WORKED.as_bytes());
}

#[test]
fn refuses_each_fault_at_its_place(rt: HostRuntime) {
    for line in CHANGES.lines() {
        let (want, change) = line.split_once(" | ").expect(&rt, "no answer");
        let (old, new) = change.split_once(" | ").expect(&rt, "no change");
        expect_changed(&rt, rt.alloc(), want, old, new);
    }
}

#[test]
fn reads_each_script_or_its_first_fault(rt: HostRuntime) {
    for line in SCRIPTS.lines() {
        let (script, want) = line.split_once(" | ").expect(&rt, "no answer");
        expect(&rt, rt.alloc(), want, script.as_bytes());
    }
}

#[test]
fn reads_asks_that_stand_alone(rt: HostRuntime) {
    for line in ASKS.lines() {
        let (text, want) = line.split_once(" | ").expect(&rt, "no answer");
        assert_eq!(rt; ask(&rt, rt.alloc(), text).as_str(), want);
    }
}

#[test]
fn keeps_the_limits(rt: HostRuntime) {
    let alloc = rt.alloc();
    keeps_limit(
        &rt,
        alloc,
        "lanes",
        16,
        17,
        r#"[]"#,
        r#"{"format":1,"lanes":[@]}"#,
    );
    keeps_limit(
        &rt,
        alloc,
        "steps",
        4096,
        4097,
        r#"{"do":"collect"}"#,
        r#"{"format":1,"lanes":[[@]]}"#,
    );
    keeps_limit(
        &rt,
        alloc,
        "relations",
        256,
        257,
        r#"{"usr":"a0","roles":["CalledBy"]}"#,
        r#"{"format":1,"lanes":[[{"do":"build","unit":{"output":"abc","records":[{"path":"p","symbols":[{"usr":"a0"}],"occurrences":[{"usr":"a0","line":1,"col":1,"roles":["Call"],"relations":[@]}]}]}}]]}"#,
    );
    keeps_limit(
        &rt,
        alloc,
        "words",
        64,
        65,
        r#""Call""#,
        r#"{"format":1,"lanes":[[{"do":"build","unit":{"output":"abc","records":[{"path":"p","symbols":[{"usr":"a0"}],"occurrences":[{"usr":"a0","line":1,"col":1,"roles":[@]}]}]}}]]}"#,
    );
    keeps_limit(
        &rt,
        alloc,
        "records",
        4096,
        4097,
        r#"{"path":"p"}"#,
        r#"{"format":1,"lanes":[[{"do":"build","unit":{"output":"abc","records":[@]}}]]}"#,
    );
    keeps_limit(
        &rt,
        alloc,
        "files",
        4096,
        4097,
        r#"{"path":"p"}"#,
        r#"{"format":1,"lanes":[[{"do":"build","unit":{"output":"abc","files":[@]}}]]}"#,
    );
    keeps_limit(
        &rt,
        alloc,
        "units",
        4096,
        4097,
        r#""p""#,
        r#"{"format":1,"lanes":[[{"do":"build","unit":{"output":"abc","units":[@]}}]]}"#,
    );
    keeps_limit(
        &rt,
        alloc,
        "includes",
        4096,
        4097,
        r#"{"from":"p","line":1,"to":"p"}"#,
        r#"{"format":1,"lanes":[[{"do":"build","unit":{"output":"abc","includes":[@]}}]]}"#,
    );
    keeps_limit(
        &rt,
        alloc,
        "words",
        64,
        65,
        r#""Local""#,
        r#"{"format":1,"lanes":[[{"do":"build","unit":{"output":"o","records":[{"path":"p","symbols":[{"usr":"u","props":[@]}]}]}}]]}"#,
    );
    keeps_limit(
        &rt,
        alloc,
        "words",
        64,
        65,
        r#""BaseOf""#,
        r#"{"format":1,"lanes":[[{"do":"build","unit":{"output":"o","records":[{"path":"p","symbols":[{"usr":"u"}],"occurrences":[{"usr":"u","line":1,"col":1,"roles":["Call"],"relations":[{"usr":"u","roles":[@]}]}]}]}}]]}"#,
    );
    keeps_limit(
        &rt,
        alloc,
        "words",
        64,
        65,
        r#""Read""#,
        r#"{"format":1,"lanes":[[{"do":"ask","query":"occ","usr":"u","roles":[@]}]]}"#,
    );
    keeps_limit(
        &rt,
        alloc,
        "words",
        64,
        65,
        r#""BaseOf""#,
        r#"{"format":1,"lanes":[[{"do":"ask","query":"rel","usr":"u","roles":[@]}]]}"#,
    );
}

#[test]
fn keeps_the_limit_of_texts(rt: HostRuntime) {
    let alloc = rt.alloc();
    keeps_text_limit(
        &rt,
        alloc,
        r#"value at "/lanes/0/0/unit/output""#,
        r#"{"format":1,"lanes":[[{"do":"build","unit":{"output":"@"}}]]}"#,
    );
    keeps_text_limit(
        &rt,
        alloc,
        r#"value at "/lanes/0/0/name""#,
        r#"{"format":1,"lanes":[[{"do":"ask","query":"name","name":"@"}]]}"#,
    );
}

#[test]
fn keeps_the_greatest_limits(rt: HostRuntime) {
    let alloc = rt.alloc();
    keeps_limit(
        &rt,
        alloc,
        "order",
        65536,
        65537,
        r#"0"#,
        r#"{"format":1,"order":[@],"lanes":[[]]}"#,
    );
    keeps_limit(
        &rt,
        alloc,
        "symbols",
        65536,
        65537,
        r#"{"usr":"a#"}"#,
        r#"{"format":1,"lanes":[[{"do":"build","unit":{"output":"abc","records":[{"path":"p","symbols":[@]}]}}]]}"#,
    );
    keeps_limit(
        &rt,
        alloc,
        "occurrences",
        65536,
        65537,
        r#"{"usr":"a0","line":1,"col":1,"roles":["Call"]}"#,
        r#"{"format":1,"lanes":[[{"do":"build","unit":{"output":"abc","records":[{"path":"p","symbols":[{"usr":"a0"}],"occurrences":[@]}]}}]]}"#,
    );
}

#[test]
fn refuses_bytes_that_are_no_json(rt: HostRuntime) {
    let alloc = rt.alloc();
    let broken = b"{\"format\":1,\"lanes\":[[{\"do\":\"remove\",\"output\":\"\xff\"}]]}";
    expect(&rt, alloc, "not JSON", broken.as_slice());
    let marked = "\u{feff}{\"format\":1,\"lanes\":[]}";
    expect(&rt, alloc, "not JSON", marked.as_bytes());
    expect(&rt, alloc, "value at \"\"", DEEP.as_bytes());
    let deeper = format!(in alloc; "[{DEEP}]").expect(&rt, "memory");
    expect(&rt, alloc, "not JSON", deeper.as_bytes());
}
