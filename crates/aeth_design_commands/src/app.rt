// `app CHIP APP`: a summary of an application file, and what its connections need.
ghost use Rattle.aeth_answers.specs.Job.{done};
ghost use Rattle.aeth_answers.specs.Places.{files_of};
ghost use Rattle.aeth_answers.specs.Stop.{Answers};
ghost use Rattle.aeth_design_commands.specs.Commands.{HasRanges};
ghost use Rattle.aeth_design_commands.specs.App.{app_command, app_task, app_text, need_text};
ghost use Rattle.aeth_design_commands.specs.App.{summary_text};
ghost use Rattle.aeth_group.specs.Members.{groups_of};
ghost use Rattle.std.specs.Prelude.{◌≡◌, ◌<◌, ◌++◌, IfOk, IfSome, OnOk, flat_map, length};
ghost use Rattle.std.specs.Prelude.{map, slice_get, string_bytes};

use crate::command::DesignCommand;
use aeth_answers::{Answer, FileName, Stop, ended, push_count};
use aeth_app::App;
use aeth_base::{Channel, ConnId, NoMemory, Side};
use aeth_files::read_design;
use aeth_group::Groups;
use aeth_io::Shelf;
use std::alloc::Global;

/// The command of the words CHIP APP.
pub fn command<'a>(words: &'a [String]) -> Option<DesignCommand<'a>>
    ensures command { result ≡ app_command (map string_bytes words.now) }
    ensures ranges { IfSome result HasRanges }
{
    let [chip, app] = words else {
        return None;
    };
    let chip = FileName::new(chip.as_str())?;
    let app = FileName::new(app.as_str())?;
    Some(DesignCommand::App { chip, app })
}

/// The summary of an application file, and what its connections need.
pub fn answer<H: Shelf>(
    alloc: Global,
    chip: &FileName,
    app: &FileName,
    shelf: &mut H,
) -> Result<Answer, Stop>
    ensures { Answers (files_of H.Shelf shelf.old) (files_of H.Shelf shelf.new)
        (app_task chip.now app.now) result }
{
    let design = read_design(alloc, chip, app, shelf)?;
    ended(summed_up(alloc, &design.app))
}

/// The summary, and then the needs.
fn summed_up(alloc: Global, app: &App) -> Result<Answer, NoMemory>
    ensures { IfOk result (λ answer. answer ≡ done (app_text app.now)) }
{
    let groups = Groups::of(alloc, app)?;
    let mut text = summary_line(alloc, app, &groups)?;
    push_needs(&mut text, app)?;
    Ok(Answer::done(text))
}

fn summary_line(alloc: Global, app: &App, groups: &Groups) -> Result<Vec<u8>, NoMemory>
    requires { groups.now ≡ groups_of app.now }
    ensures { IfOk result (λ text. text.items ≡ summary_text app.now) }
{
    let mut text = Vec::new(alloc);
    push_count(&mut text, "app cores ", app.cores())?;
    push_count(&mut text, " connections ", app.connections())?;
    push_count(&mut text, " uses ", app.uses())?;
    push_count(&mut text, " groups ", groups.count())?;
    push_count(&mut text, " units ", groups.units())?;
    text.push(b'\n')?;
    Ok(text)
}

fn push_needs(text: &mut Vec<u8>, app: &App) -> Result<(), NoMemory>
    ensures { OnOk result (text.new.items ≡ text.old.items
        ++ flat_map (need_text app.now.slots) app.now.connections) }
{
    for connection in 0..app.connections() {
        push_need(text, app, ConnId(connection))?;
    }
    Ok(())
}

fn push_need(text: &mut Vec<u8>, app: &App, conn: ConnId) -> Result<(), NoMemory>
    requires { conn.0 < length app.now.connections }
    ensures { OnOk result (IfSome (slice_get app.now.connections conn.0) (λ connection.
        text.new.items ≡ text.old.items ++ need_text app.now.slots connection)) }
{
    let fwd = app.need(Channel {
        conn,
        side: Side::Fwd,
    });
    let back = app.need(Channel {
        conn,
        side: Side::Back,
    });
    let connection = app.connection(conn);
    text.extend_from_slice(b"need ")?;
    text.extend_from_slice(connection.name.as_bytes())?;
    push_count(text, " ", fwd)?;
    push_count(text, " ", back)?;
    text.push(b'\n')?;
    Ok(())
}
