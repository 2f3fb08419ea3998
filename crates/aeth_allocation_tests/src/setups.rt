// A chip and an application, and what is asked of them. Each step makes one thing and hands it on: the
// proof of a function grows fast with what it owns.
ghost use Rattle.aeth_app.specs.App.{IsAppOf};
ghost use Rattle.aeth_group.specs.Members.{groups_of};
ghost use Rattle.std.specs.Prelude.{◌≡◌};

use crate::grants::{AskedOfBook, is_book_right};
use crate::outcomes::{AskedOfAllocation, is_allocation_right};
use crate::parts::{AskedOfApp, AskedOfGroups, are_groups_right, is_app_right};
use crate::refusals::{AskedOfRefusal, is_refusal_right};
use crate::texts::{AskedOfPlan, is_plan_right};
use aeth_app::{App, read_app};
use aeth_chip::{Chip, read_chip};
use aeth_group::Groups;
use std::alloc::Global;

/// What is asked, with the answer.
#[derive(Clone, Copy)]
pub(crate) enum Question {
    /// Of the application.
    OfApp(AskedOfApp),
    /// Of its groups.
    OfGroups(AskedOfGroups),
    /// After grants over links 0, 4 and 3, each a connection of the first group and the mask of its
    /// slots.
    OfBook(&'static [(u32, u64)], AskedOfBook),
    /// Of the allocation.
    OfAllocation(AskedOfAllocation),
    /// Of the only refusal of the allocation.
    OfRefusal(AskedOfRefusal),
    /// Of the plan of a text.
    OfPlan(&'static str, AskedOfPlan),
}

/// A chip file, an application file, and what is asked of them.
pub(crate) type Row = (&'static str, &'static str, Question);

/// The number of the first row whose answer is wrong, or can't be told.
pub(crate) fn wrong_row(alloc: Global, rows: &[Row]) -> Option<usize> {
    for (i, (chip, app, question)) in rows.iter().enumerate() {
        if is_right(alloc, chip, app, question) != Some(true) {
            return Some(i);
        }
    }
    None
}

/// Whether the answer is right for a chip file and an application file; `None` where that can't be told.
fn is_right(alloc: Global, chip: &str, app: &str, question: &Question) -> Option<bool> {
    match read_chip(alloc, chip.as_bytes()) {
        Ok(chip) => is_right_on(alloc, &chip, app, question),
        Err(_) => None,
    }
}

fn is_right_on(alloc: Global, chip: &Chip, app: &str, question: &Question) -> Option<bool> {
    match read_app(alloc, app.as_bytes(), chip) {
        Ok(app) => is_right_for(alloc, chip, &app, question),
        Err(_) => None,
    }
}

fn is_right_for(alloc: Global, chip: &Chip, app: &App, question: &Question) -> Option<bool>
    requires { IsAppOf chip.now app.now }
{
    match Groups::of(alloc, app) {
        Ok(groups) => is_right_in(alloc, chip, app, &groups, question),
        Err(_) => None,
    }
}

fn is_right_in(
    alloc: Global,
    chip: &Chip,
    app: &App,
    groups: &Groups,
    question: &Question,
) -> Option<bool>
    requires app { IsAppOf chip.now app.now }
    requires groups { groups.now ≡ groups_of app.now }
{
    match question {
        Question::OfApp(asked) => Some(is_app_right(app, asked)),
        Question::OfGroups(asked) => Some(are_groups_right(groups, asked)),
        Question::OfBook(grants, asked) => is_book_right(alloc, chip, app, groups, grants, asked),
        Question::OfAllocation(asked) => is_allocation_right(alloc, chip, app, groups, asked),
        Question::OfRefusal(asked) => is_refusal_right(alloc, chip, app, groups, asked),
        Question::OfPlan(text, asked) => is_plan_right(alloc, chip, app, groups, text, asked),
    }
}
