// The applications for which paths are sought and plans are judged.

/// One connection between two cores, in one use case.
pub(crate) const ONE: &str = "version = 1
detour = 0
core = [ {name = 'cpu', ni = 'n0'}, {name = 'mem', ni = 'n1'} ]
[[connection]]
name = 'c0'
from = 'cpu'
to = 'mem'
fwd = {words = 1, per = 2, latency = 6, delay = 0}
back = {words = 0, per = 1, latency = 12, delay = 0}
[[use]]
name = 'main'
connections = ['c0']
";

/// One connection between cores at two corners of the mesh.
pub(crate) const CORNERS: &str = "version = 1
detour = 0
core = [ {name = 'cpu', ni = 'n0'}, {name = 'mem', ni = 'n15'} ]
[[connection]]
name = 'c0'
from = 'cpu'
to = 'mem'
fwd = {words = 1, per = 2, latency = 6, delay = 0}
back = {words = 0, per = 1, latency = 12, delay = 0}
[[use]]
name = 'main'
connections = ['c0']
";

/// Two connections, and two use cases with a smooth switch: the second has both.
pub(crate) const TWO: &str = "version = 1
detour = 0
core = [ {name = 'cpu', ni = 'n0'}, {name = 'mem', ni = 'n1'}, {name = 'dsp', ni = 'n0'} ]
[[connection]]
name = 'c0'
from = 'cpu'
to = 'mem'
fwd = {words = 1, per = 2, latency = 6, delay = 0}
back = {words = 0, per = 1, latency = 12, delay = 0}
[[connection]]
name = 'c1'
from = 'dsp'
to = 'mem'
fwd = {words = 1, per = 8, latency = 12, delay = 0}
back = {words = 0, per = 1, latency = 12, delay = 0}
[[use]]
name = 'u0'
connections = ['c0']
smooth = ['u1']
[[use]]
name = 'u1'
connections = ['c0', 'c1']
";

/// Two connections, and two use cases in two groups: the second has both.
pub(crate) const SPLIT: &str = "version = 1
detour = 0
core = [ {name = 'cpu', ni = 'n0'}, {name = 'mem', ni = 'n1'}, {name = 'dsp', ni = 'n0'} ]
[[connection]]
name = 'c0'
from = 'cpu'
to = 'mem'
fwd = {words = 1, per = 2, latency = 6, delay = 0}
back = {words = 0, per = 1, latency = 12, delay = 0}
[[connection]]
name = 'c1'
from = 'dsp'
to = 'mem'
fwd = {words = 1, per = 8, latency = 12, delay = 0}
back = {words = 0, per = 1, latency = 12, delay = 0}
[[use]]
name = 'u0'
connections = ['c0']
[[use]]
name = 'u1'
connections = ['c0', 'c1']
";

/// Two connections, the second between cores on one interface, and one use case with both.
pub(crate) const LOCAL: &str = "version = 1
detour = 0
core = [ {name = 'cpu', ni = 'n0'}, {name = 'mem', ni = 'n1'}, {name = 'dsp', ni = 'n0'} ]
[[connection]]
name = 'c0'
from = 'cpu'
to = 'mem'
fwd = {words = 1, per = 2, latency = 6, delay = 0}
back = {words = 0, per = 1, latency = 12, delay = 0}
[[connection]]
name = 'c1'
from = 'cpu'
to = 'dsp'
fwd = {words = 0, per = 1, latency = 12, delay = 0}
back = {words = 0, per = 1, latency = 12, delay = 0}
[[use]]
name = 'main'
connections = ['c0', 'c1']
";

/// The connections of `LOCAL`, in two use cases of one group: none has both.
pub(crate) const SMOOTH: &str = "version = 1
detour = 0
core = [ {name = 'cpu', ni = 'n0'}, {name = 'mem', ni = 'n1'}, {name = 'dsp', ni = 'n0'} ]
[[connection]]
name = 'c0'
from = 'cpu'
to = 'mem'
fwd = {words = 1, per = 2, latency = 6, delay = 0}
back = {words = 0, per = 1, latency = 12, delay = 0}
[[connection]]
name = 'c1'
from = 'cpu'
to = 'dsp'
fwd = {words = 0, per = 1, latency = 12, delay = 0}
back = {words = 0, per = 1, latency = 12, delay = 0}
[[use]]
name = 'u0'
connections = ['c0']
smooth = ['u1']
[[use]]
name = 'u1'
connections = ['c1']
";

/// Two connections on the pair between cores of which one is fixed. The first has no candidate back: no
/// path has a latency of 1.
pub(crate) const ROLL: &str = "version = 1
detour = 0
core = [{name = 'cpu', ni = 'n0'}, {name = 'acc'}, {name = 'aux'}]
[[connection]]
name = 'c0'
from = 'cpu'
to = 'acc'
fwd = {words = 1, per = 2, latency = 12, delay = 0}
back = {words = 0, per = 1, latency = 1, delay = 0}
[[connection]]
name = 'c1'
from = 'cpu'
to = 'aux'
fwd = {words = 0, per = 1, latency = 12, delay = 0}
back = {words = 0, per = 1, latency = 12, delay = 0}
[[use]]
name = 'main'
connections = ['c0', 'c1']
";

/// Three streams on the square. The first two take 7 of the 8 slots of each link on their way, and the third wishes 3 from
/// the third corner to the second.
pub(crate) const CROSSING: &str = "version = 1
detour = 0
core = [
  {name = 'cam', ni = 'n0'}, {name = 'disp', ni = 'n1'},
  {name = 'dsp', ni = 'n2'}, {name = 'net', ni = 'n3'},
]
[[connection]]
name = 'cam_net'
from = 'cam'
to = 'net'
fwd = {words = 3, per = 2, latency = 12, delay = 0}
back = {words = 0, per = 1, latency = 20, delay = 0}
[[connection]]
name = 'net_cam'
from = 'net'
to = 'cam'
fwd = {words = 3, per = 2, latency = 12, delay = 0}
back = {words = 0, per = 1, latency = 20, delay = 0}
[[connection]]
name = 'dsp_disp'
from = 'dsp'
to = 'disp'
fwd = {words = 3, per = 4, latency = 20, delay = 0}
back = {words = 0, per = 1, latency = 20, delay = 0}
[[use]]
name = 'main'
connections = ['cam_net', 'net_cam', 'dsp_disp']
";
