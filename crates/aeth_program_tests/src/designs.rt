// Files of the worked examples, and what commands say of them.

/// Two routers, each with a network interface, and a link each way between them.
pub(crate) const PAIR: &str = r#"version = 1
slots = 8
routers = ["r0", "r1"]
nis = ["n0", "n1"]
link = [
  {from = "n0", to = "r0"}, {from = "r0", to = "n0"},
  {from = "n1", to = "r1"}, {from = "r1", to = "n1"},
  {from = "r0", to = "r1"}, {from = "r1", to = "r0"},
]
"#;

/// Two cores on the pair, and a connection between them.
pub(crate) const ONE: &str = r#"version = 1
detour = 0
core = [{name = "cpu", ni = "n0"}, {name = "mem", ni = "n1"}]
[[connection]]
name = "c0"
from = "cpu"
to = "mem"
fwd = {words = 1, per = 2, latency = 6, delay = 0}
back = {words = 0, per = 1, latency = 12, delay = 0}
[[use]]
name = "main"
connections = ["c0"]
"#;

/// Three cores on the pair of routers, and two use cases, between which a switch is smooth.
const TWO: &str = r#"version = 1
detour = 0
core = [
  {name = "cpu", ni = "n0"},
  {name = "mem", ni = "n1"},
  {name = "dsp", ni = "n0"}
]
[[connection]]
name = "c0"
from = "cpu"
to = "mem"
fwd = {words = 1, per = 2, latency = 6, delay = 0}
back = {words = 0, per = 1, latency = 12, delay = 0}
[[connection]]
name = "c1"
from = "dsp"
to = "mem"
fwd = {words = 1, per = 8, latency = 12, delay = 0}
back = {words = 0, per = 1, latency = 12, delay = 0}
[[use]]
name = "u0"
connections = ["c0"]
smooth = ["u1"]
[[use]]
name = "u1"
connections = ["c0", "c1"]
"#;

/// A plan for the connection of `one`: its words go in slots 0 and 4, over three links, and their
/// credits return in slot 0.
pub(crate) const PLAN: &str = "plan 1 8
seat cpu n0 0
seat mem n1 0
grant c0 0 fwd 0,4,3 0,4
grant c0 0 back 2,5,1 0
end
";

/// Five words that are offered in one cycle.
pub(crate) const WORDS: &str = "connection,side,cycle,value
c0,fwd,1,100
c0,fwd,1,101
c0,fwd,1,102
c0,fwd,1,103
c0,fwd,1,104
";

/// The files by their names.
pub(crate) static FILES: [(&str, &str); 7] = [
    ("pair", PAIR),
    ("one", ONE),
    ("two", TWO),
    ("plan", PLAN),
    ("words", WORDS),
    ("receivers", "connection,side,cycle,pull\n"),
    ("switches", "cycle,use,drain\n0,main,0\n"),
];

/// What `app` says of the three cores, with `;` for each line feed.
pub(crate) const SUMMED_UP: &str =
    "0 out app cores 3 connections 2 uses 2 groups 1 units 2;need c0 2 1;need c1 1 1;";

/// What `allocate` says of the one connection.
pub(crate) const PLANNED: &str = "0 out plan 1 8;seat cpu n0 0;seat mem n1 0;\
    grant c0 0 fwd 0,4,3 0,4;grant c0 0 back 2,5,1 0;end;";

/// What `check` says of its plan.
pub(crate) const CHECKED: &str = "0 out accepted;";

/// A run in which the five words land.
pub(crate) const RUN: &str = "simulate pair one plan words receivers switches 20";

/// What it says.
pub(crate) const LOG: &str = "0 out sim 1 20;chan c0 fwd 0 running 5 5 5;\
    land 1 1 7 7 100;land 2 1 7 9 101;land 3 1 11 11 102;land 4 1 11 13 103;land 5 1 15 15 104;\
    chan c0 back 0 running 0 0 0;\
    link 0 3;link 1 2;link 2 2;link 3 3;link 4 3;link 5 2;end;";
