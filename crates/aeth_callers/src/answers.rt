// That callers answer where memory is left, as was worked out by hand: on two routers, each with a network interface.
ghost use Rattle.aeth_app.specs.App.{IsAppOf};

use crate::paths::shortest;
use crate::plans::accepted_plan;
use aeth_app::{App, read_app};
use aeth_base::{ConnId, GroupId, NiId, Side, Unit};
use aeth_book::Book;
use aeth_chip::{Chip, read_chip};
use aeth_group::Groups;
use aeth_paths::Request;
use std::alloc::Global;

const CHIP: &str = "version = 1
slots = 8
routers = ['r0', 'r1']
nis = ['n0', 'n1']
link = [
  {from = 'n0', to = 'r0'}, {from = 'r0', to = 'n0'},
  {from = 'n1', to = 'r1'}, {from = 'r1', to = 'n1'},
  {from = 'r0', to = 'r1'}, {from = 'r1', to = 'r0'},
]
";

const APP: &str = "version = 1
detour = 0
core = [ {name = 'cpu', ni = 'n0'}, {name = 'mem', ni = 'n1'} ]
[[connection]]
name = 'c0'
from = 'cpu'
to = 'mem'
fwd = {words = 1, per = 2, latency = 6, delay = 0}
back = {words = 0, per = 1, latency = 12, delay = 0}
[[use]]
name = 'main'
connections = ['c0']
";

const PLAN: &str = "plan 1 8
seat cpu n0 0
seat mem n1 0
grant c0 0 fwd 0,4,3 0,4
grant c0 0 back 2,5,1 0
end
";

// The forward channel, for one flit a table.
const ASK: Request = Request {
    unit: Unit {
        conn: ConnId(0),
        group: GroupId(0),
    },
    side: Side::Fwd,
    need: 1,
    latency: 12,
    detour: 0,
};

// Whether the plan of a text is accepted; `None` where that can't be told.
fn is_accepted(alloc: Global, text: &str, chip: &Chip, app: &App) -> Option<bool>
    requires { IsAppOf chip.now app.now }
{
    match accepted_plan(alloc, text.as_bytes(), chip, app) {
        Ok(found) => Some(found.is_some()),
        Err(_) => None,
    }
}

// How many links the first path has without any grant; `None` where that can't be told.
fn first_links(alloc: Global, chip: &Chip, app: &App) -> Option<u32> {
    let groups = Groups::of(alloc, app).ok()?;
    let book = Book::new(alloc, chip, app, &groups).ok()?;
    match shortest(alloc, chip, &book, &ASK, NiId(0), NiId(1)) {
        Ok(Some(found)) => Some(found.path.len()),
        _ => None,
    }
}

// The answers of the callers; `None` where one can't be told.
fn answers(alloc: Global) -> Option<(bool, u32)> {
    match read_chip(alloc, CHIP.as_bytes()) {
        Ok(chip) => answers_on(alloc, &chip),
        Err(_) => None,
    }
}

fn answers_on(alloc: Global, chip: &Chip) -> Option<(bool, u32)> {
    match read_app(alloc, APP.as_bytes(), chip) {
        Ok(app) => answers_for(alloc, chip, &app),
        Err(_) => None,
    }
}

fn answers_for(alloc: Global, chip: &Chip, app: &App) -> Option<(bool, u32)>
    requires { IsAppOf chip.now app.now }
{
    let is_accepted = is_accepted(alloc, PLAN, chip, app)?;
    let links = first_links(alloc, chip, app)?;
    Some((is_accepted, links))
}

#[test]
fn callers_answer(rt: HostRuntime) {
    assert_eq!(rt; answers(rt.alloc()), Some((true, 3)));
}
