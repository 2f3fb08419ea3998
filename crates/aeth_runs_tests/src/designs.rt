// A chip and an application.

/// Two routers, each with a network interface, and a link each way between them.
pub(crate) const PAIR: &str = r#"version = 1
slots = 8
routers = ["r0", "r1"]
nis = ["n0", "n1"]
link = [
  {from = "n0", to = "r0"}, {from = "r0", to = "n0"},
  {from = "n1", to = "r1"}, {from = "r1", to = "n1"},
  {from = "r0", to = "r1"}, {from = "r1", to = "r0"},
]
"#;

/// Two connections, and three use cases of one group: with the first, with both, and with the second.
pub(crate) const THREE: &str = r#"version = 1
detour = 0
core = [{name = "cpu", ni = "n0"}, {name = "mem", ni = "n1"}, {name = "dsp", ni = "n0"}]
[[connection]]
name = "c0"
from = "cpu"
to = "mem"
fwd = {words = 1, per = 2, latency = 6, delay = 0}
back = {words = 0, per = 1, latency = 12, delay = 0}
[[connection]]
name = "c1"
from = "dsp"
to = "mem"
fwd = {words = 1, per = 8, latency = 12, delay = 0}
back = {words = 0, per = 1, latency = 12, delay = 0}
[[use]]
name = "u0"
connections = ["c0"]
smooth = ["u1"]
[[use]]
name = "u1"
connections = ["c0", "c1"]
smooth = ["u2"]
[[use]]
name = "u2"
connections = ["c1"]
"#;
