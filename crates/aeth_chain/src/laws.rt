//! What holds of chains, of their items and of their runs, over the definitions alone.
ghost use Rattle.std.specs.Prelude.{◌<◌, ◌≡◌, List, Ok, Some, length, ℕ};
ghost use Rattle.aeth_accepted.specs.Inputs.{Inputs};
ghost use Rattle.aeth_app.specs.App.{AppData};
ghost use Rattle.aeth_base.specs.declared.ids.UseId.{UseId};
ghost use Rattle.aeth_chain.specs.Chain.{IsChain, legs_of};
ghost use Rattle.aeth_chain.specs.ChainBounds.{AreDueWordsLanded};
ghost use Rattle.aeth_chain.specs.ChainInputs.{AreTabled};
ghost use Rattle.aeth_chain.specs.declared.item.ChainItem.{ChainItem};
ghost use Rattle.aeth_chain.specs.ChainItems.{items_of};
ghost use Rattle.aeth_chain.specs.ItemNames.{AreItemNames, item_names_of};
ghost use Rattle.aeth_chain.specs.Shapes.{AreShapesIn, shapes_in};
ghost use Rattle.aeth_chain.specs.declared.names.ItemName.{ItemName};
ghost use Rattle.aeth_chip.specs.Chip.{ChipData};
ghost use Rattle.aeth_group.specs.Members.{groups_of};
ghost use Rattle.aeth_plan.specs.Design.{IsDesign};
ghost use Rattle.aeth_plan.specs.Plan.{PlanData};
ghost use Rattle.aeth_server.specs.declared.shape.ChannelShape.{ChannelShape};
ghost use Rattle.aeth_tables.specs.Tables.{tables_of};
ghost use Rattle.aeth_trace.specs.Words.{AreWordsOf};

/// On a chain whose channels have the shapes that the tables of an accepted plan have, a word that is due
/// by a cycle of the run has landed on the last channel by then, while the receivers of all channels
/// keep their delays.
pub fn chains_land()
    ensures { (inputs : Inputs) (u : UseId) (items : List ChainItem) (shapes : List ChannelShape)
        → AreTabled inputs u items shapes → IsChain items shapes → AreWordsOf inputs.app inputs.words
        → AreDueWordsLanded (legs_of items shapes) inputs.words inputs.pulls inputs.cycles }
{
    aeth_accepted::laws::runs_are_sound();
}

/// The items of a word in a use case are a chain, with the shapes that the tables of an accepted plan
/// have.
pub fn items_are_chains()
    ensures named { (word : List ℕ) (names : List ItemName) → item_names_of word ≡ Some names
        → AreItemNames names }
    ensures chain { (chip : ChipData) (app : AppData) (plan : PlanData) → IsDesign chip app plan
        → (u : UseId) → u.0 < length app.uses → (names : List ItemName) (items : List ChainItem)
        → AreItemNames names → items_of app u.0 names ≡ Ok items
        → IsChain items (shapes_in (tables_of chip app (groups_of app) plan u) items) }
    ensures tabled { (chip : ChipData) (app : AppData) (plan : PlanData) → IsDesign chip app plan
        → (u : UseId) → u.0 < length app.uses → (names : List ItemName) (items : List ChainItem)
        → AreItemNames names → items_of app u.0 names ≡ Ok items
        → AreShapesIn (tables_of chip app (groups_of app) plan u) items
        (shapes_in (tables_of chip app (groups_of app) plan u) items) }
{}
