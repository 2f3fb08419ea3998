// A design with an accepted plan for it.
use aeth_plan::{Design, Planned};

/// A chip and an application, with an accepted plan for these. They are borrowed, and passed on as
/// one value.
#[derive(Clone, Copy)]
pub(crate) struct AcceptedDesign<'a> {
    pub design: &'a Design,
    pub planned: &'a Planned,
}
