// Two connections over a pair of routers, and two use cases: `u0` has `c0`, and `u1` has `c0` and
// `c1`.
use aeth_app::{App, read_app};
use aeth_chip::{Chip, read_chip};
use std::alloc::Global;
use std::test::Fail;

const PAIR: &str = "version = 1
slots = 8
routers = ['r0', 'r1']
nis = ['n0', 'n1']
link = [
  {from = 'n0', to = 'r0'}, {from = 'r0', to = 'n0'},
  {from = 'n1', to = 'r1'}, {from = 'r1', to = 'n1'},
  {from = 'r0', to = 'r1'}, {from = 'r1', to = 'r0'},
]
";

const TWO: &str = "version = 1
detour = 0
core = [{name = 'cpu', ni = 'n0'}, {name = 'mem', ni = 'n1'}, {name = 'dsp', ni = 'n0'}]
[[connection]]
name = 'c0'
from = 'cpu'
to = 'mem'
fwd = {words = 1, per = 2, latency = 6, delay = 0}
back = {words = 0, per = 1, latency = 12, delay = 0}
[[connection]]
name = 'c1'
from = 'dsp'
to = 'mem'
fwd = {words = 1, per = 8, latency = 12, delay = 0}
back = {words = 0, per = 1, latency = 12, delay = 0}
[[use]]
name = 'u0'
connections = ['c0']
smooth = ['u1']
[[use]]
name = 'u1'
connections = ['c0', 'c1']
";

fn pair(alloc: Global) -> Result<Chip, Fail> {
    match read_chip(alloc, PAIR.as_bytes()) {
        Ok(chip) => Ok(chip),
        Err(_) => Err(Fail::from("a chip")),
    }
}

fn two_on(alloc: Global, chip: &Chip) -> Result<App, Fail> {
    match read_app(alloc, TWO.as_bytes(), chip) {
        Ok(app) => Ok(app),
        Err(_) => Err(Fail::from("an application")),
    }
}

/// The application.
pub(crate) fn two(alloc: Global) -> Result<App, Fail> {
    let chip = pair(alloc)?;
    two_on(alloc, &chip)
}
