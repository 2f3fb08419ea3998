// A chip with an application for it, and a plan with the groups of the application.
use crate::plan::Plan;
use aeth_app::App;
use aeth_chip::Chip;
use aeth_group::Groups;

/// A chip, and an application for it.
#[derive(Drop)]
pub struct Design {
    pub chip: Chip,
    pub app: App,
}

/// The groups of an application, and a plan for it.
#[derive(Drop)]
pub struct Planned {
    pub groups: Groups,
    pub plan: Plan,
}
