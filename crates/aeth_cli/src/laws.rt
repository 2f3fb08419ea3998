//! What holds of the jobs that the program does, and of every run, over the definitions alone.
ghost use Rattle.aeth_accepted.specs.Inputs.{AreAccepted, Inputs};
ghost use Rattle.std.specs.Prelude.{◌≡◌, ◌≤◌, ℕ, List, Option, Some};
ghost use Rattle.aeth_answers.specs.Job.{Job};
ghost use Rattle.aeth_answers.specs.Status.{done_status};
ghost use Rattle.aeth_answers.specs.Task.{job_with};
ghost use Rattle.aeth_base.specs.Limits.{max_cycles};
ghost use Rattle.aeth_chain.specs.ItemNames.{AreItemNames};
ghost use Rattle.aeth_chain.specs.declared.names.ItemName.{ItemName};
ghost use Rattle.aeth_cli.specs.Commands.{command_of};
ghost use Rattle.aeth_cli.specs.Commands.Links.{links_task};
ghost use Rattle.aeth_cli.specs.Limits.{max_logged_cycles};
ghost use Rattle.aeth_cli.specs.Told.{IsLinksLog};
ghost use Rattle.aeth_cli.specs.declared.commands.links.LoggedRun.{LoggedRun};
ghost use Rattle.aeth_cli.specs.Runs.{HoldsOfRun};
ghost use Rattle.aeth_plan_commands.specs.declared.chain.ChainFiles.{ChainFiles};
ghost use Rattle.aeth_plan_commands.specs.declared.command.PlanCommand.TheVariants as plan;
ghost use Rattle.aeth_cli.specs.declared.commands.Command.TheVariants as command;
ghost use Rattle.aeth_run_commands.specs.declared.command.RunCommand.TheVariants as run;
ghost use Rattle.aeth_run_commands.specs.declared.simulate.SimulatedRun.{SimulatedRun};

pub use aeth_command_laws::laws::{
    allocated_designs, audits_are_exact, chains_meet_bounds, refusals_are_explained,
    simulated_runs, tables_bind,
};

/// The words of `simulate`, and those of `simulate-tables`, name a number of cycles within the limit.
pub fn simulations_end()
    ensures headers { (words : List (List ℕ)) (one : SimulatedRun)
        → command_of words ≡ Some (command.Run (run.Simulate one)) → one.cycles ≤ max_cycles }
    ensures tables { (words : List (List ℕ)) (one : SimulatedRun)
        → command_of words ≡ Some (command.Run (run.SimulateTables one))
        → one.cycles ≤ max_cycles }
{
    aeth_chain::laws::items_are_chains();
}

/// The words of `links` name a number of cycles within its limit, and those of `chain` tell names of items.
pub fn commands_are_in_range()
    ensures links { (words : List (List ℕ)) (one : LoggedRun)
        → command_of words ≡ Some (command.Links one) → one.cycles ≤ max_logged_cycles }
    ensures items { (words : List (List ℕ)) (files : ChainFiles) (name : List ℕ)
        (items : List ItemName) (cycles : ℕ)
        → command_of words ≡ Some (command.Plan (plan.Chain files name items cycles))
        → AreItemNames items }
{
    aeth_chain::laws::items_are_chains();
}

/// Where a job of `links` is done, its files told accepted inputs, and it prints a log of what the links
/// carry in the run of these, of which no row breaks a rule.
pub fn links_are_clean()
    ensures { (words : List (List ℕ)) (content : List ℕ → Option (List ℕ)) (one : LoggedRun)
        (asked : Job) → command_of words ≡ Some (command.Links one)
        → job_with content (links_task one) ≡ Some asked → asked.status ≡ done_status
        → IsLinksLog content one asked }
{
    commands_are_in_range();
    aeth_command_laws::laws::traced_runs();
    aeth_accepted::laws::runs_are_sound();
    aeth_audit::laws::audits();
    aeth_links::laws::carried_logs_are_clean();
}

/// All sentences on runs hold of each run of accepted inputs.
pub fn runs_hold()
    ensures { (inputs : Inputs) → AreAccepted inputs → HoldsOfRun inputs }
{
    aeth_accepted::laws::runs_are_sound();
    aeth_accepted::laws::links_carry_one();
    aeth_accepted::laws::words_land_in_time();
    aeth_accepted::laws::kept_channels_are_untouched();
    aeth_report::laws::rows_are_landings();
    aeth_report::laws::channels_are_independent();
    aeth_running::laws::networks_carry();
    aeth_table_network::laws::tables_route();
}
