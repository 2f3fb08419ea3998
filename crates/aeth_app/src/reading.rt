// Reading an application file: its rules one after the other.
ghost use Rattle.std.specs.Prelude.{◌≡◌, length, IfOk, None};
ghost use Rattle.aeth_base.specs.Faults.{Reads};
ghost use Rattle.aeth_chip.specs.Chip.{IsChip};
ghost use Rattle.aeth_app.specs.App.{IsAppOf};
ghost use Rattle.aeth_app.specs.AppFile.{app_in, app_of, demanded, told_app};
ghost use Rattle.aeth_app.specs.AppParts.{app_with};
ghost use Rattle.aeth_app.specs.Demands.{IsWithinDemands};
ghost use Rattle.aeth_app.specs.Fault.{rule_of};
ghost use Rattle.aeth_app.specs.Names.{AreNamesOf};
ghost use Rattle.aeth_app.specs.Ranges.{IsInRange};
ghost use Rattle.aeth_app.specs.Repeats.{HasDistinctNames};
ghost use Rattle.aeth_app.specs.Unknown.{unknown_name};
ghost use Rattle.toml.specs.View.{table_view};

use crate::app::{App, PartNames, Parts, Settings};
use crate::demands::judge_demands;
use crate::ends::positions_of;
use crate::fault::AppFault;
use crate::keys::wrong_keys;
use crate::names::names_of;
use crate::parts::{connections_of, cores_of, told_price, uses_of};
use crate::ranges::out_of_range;
use crate::repeats::name_twice;
use crate::unknown::unknown_name;
use aeth_base::{Broken, NoMemory, Shown};
use aeth_chip::Chip;
use aeth_document::{integer_at, read_document, size, tables_at, text_if};
use std::alloc::Global;
use toml::Table;

// The settings and parts that the tables tell, whose names these are.
#[tactic(auto, unfolding(crate::specs::AppFile::told_app))]
fn told_parts(
    alloc: Global,
    chip: &Chip,
    root: &Table,
    names: &PartNames,
) -> Result<(Settings, Parts), NoMemory>
    requires names { AreNamesOf (table_view root.now) names.now }
    requires range { IsInRange (table_view root.now) }
    ensures told { IfOk result (λ told.
        app_with told.0 told.1 ≡ told_app chip.now (table_view root.now)) }
    ensures chip { IsChip chip.now }
{
    let settings = Settings {
        slots: chip.slots(),
        detour: size(integer_at(root, "detour")) as u32,
        price: told_price(text_if(root, "cost")),
    };
    let parts = Parts {
        cores: cores_of(alloc, chip, tables_at(root, "core"))?,
        connections: connections_of(alloc, &names.cores, tables_at(root, "connection"))?,
        uses: uses_of(alloc, names, tables_at(root, "use"))?,
    };
    Ok((settings, parts))
}

// The same where the parts keep the rules on what they ask for, and else the first that they break.
fn judged_parts(
    alloc: Global,
    chip: &Chip,
    root: &Table,
    names: &PartNames,
) -> Result<(Settings, Parts), AppFault>
    requires names { AreNamesOf (table_view root.now) names.now }
    requires range { IsInRange (table_view root.now) }
    ensures gives { Reads rule_of (λ told. app_with told.0 told.1) result
        (demanded (length chip.now.nis) (told_app chip.now (table_view root.now))) }
    ensures told { IfOk result (λ told.
        app_with told.0 told.1 ≡ told_app chip.now (table_view root.now)) }
    ensures within { IfOk result (λ _. IsWithinDemands (length chip.now.nis)
        (told_app chip.now (table_view root.now)).cores
        (told_app chip.now (table_view root.now)).connections) }
    ensures chip { IsChip chip.now }
{
    let (settings, parts) = told_parts(alloc, chip, root, names)?;
    judge_demands(alloc, chip.nis(), &parts.cores, &parts.connections)?;
    Ok((settings, parts))
}

// The application of tables in which all names are known, or the first rule on what it asks
// for that it breaks.
fn told_app(alloc: Global, chip: &Chip, root: &Table, names: PartNames) -> Result<App, AppFault>
    requires names { AreNamesOf (table_view root.now) names }
    requires range { IsInRange (table_view root.now) }
    requires apart { HasDistinctNames (table_view root.now) }
    requires known { unknown_name chip.now.nis (table_view root.now) ≡ None }
    ensures gives { Reads rule_of (λ app. app) result
        (demanded (length chip.now.nis) (told_app chip.now (table_view root.now))) }
    ensures chip { IfOk result (IsAppOf chip.now) }
{
    let (settings, parts) = judged_parts(alloc, chip, root, &names)?;
    let positions = positions_of(alloc, parts.cores.len() as u32, &parts.connections)?;
    Ok(App::new(settings, parts, names, positions))
}

#[tactic(auto, unfolding(crate::specs::AppFile::app_in))]
fn app_in(alloc: Global, chip: &Chip, root: &Table) -> Result<App, AppFault>
    ensures gives { Reads rule_of (λ app. app) result (app_in chip.now (table_view root.now)) }
    ensures chip { IfOk result (IsAppOf chip.now) }
{
    if let Some(broken) = wrong_keys(root) {
        return Err(AppFault::WrongKey(broken));
    }
    if let Some(broken) = out_of_range(root) {
        return Err(AppFault::OutOfRange(broken));
    }
    if let Some(broken) = name_twice(alloc, root)? {
        return Err(AppFault::NameTwice(broken));
    }
    let names = names_of(alloc, root)?;
    if let Some(broken) = unknown_name(chip, root, &names) {
        return Err(AppFault::UnknownName(broken));
    }
    told_app(alloc, chip, root, names)
}

/// The application of a file's bytes, for a chip; or the first rule that the file breaks; or memory
/// ran out.
#[tactic(auto, unfolding(crate::specs::AppFile::app_of))]
pub fn read_app(alloc: Global, bytes: &[u8], chip: &Chip) -> Result<App, AppFault>
    ensures gives { Reads rule_of (λ app. app) result (app_of chip.now bytes.now) }
    ensures chip { IfOk result (IsAppOf chip.now) }
{
    match read_document(alloc, bytes)? {
        None => Err(AppFault::BadToml(Broken {
            place: 0,
            value: Shown::Nothing,
        })),
        Some(root) => app_in(alloc, chip, &root),
    }
}
