//! What holds of the rows that a trace file tells, over the definitions alone.
ghost use Rattle.std.specs.Prelude.{◌≡◌, ℕ, List, Ok};
ghost use Rattle.aeth_app.specs.App.{AppData};
ghost use Rattle.aeth_trace.specs.Receivers.{AreReceiversOf, receivers_of};
ghost use Rattle.aeth_trace.specs.Spans.{SpanData};
ghost use Rattle.aeth_trace.specs.Switches.{AreSwitchesOf, switches_of};
ghost use Rattle.aeth_trace.specs.Words.{AreWordsOf, words_of};
ghost use Rattle.aeth_trace.specs.declared.receivers.PullRow.{PullRow};
ghost use Rattle.aeth_trace.specs.declared.switches.SwitchRow.{SwitchRow};
ghost use Rattle.aeth_trace.specs.declared.words.WordRow.{WordRow};

/// What the bytes of a file tell with an application is what a run of it may have.
pub fn files()
    ensures words { (app : AppData) (bytes : List ℕ) (rows : List WordRow)
        → words_of app bytes ≡ Ok rows → AreWordsOf app rows }
    ensures receivers { (app : AppData) (bytes : List ℕ) (rows : List PullRow)
        → receivers_of app bytes ≡ Ok rows → AreReceiversOf app rows }
    ensures switches { (app : AppData) (spans : SpanData) (bytes : List ℕ) (rows : List SwitchRow)
        → switches_of app spans bytes ≡ Ok rows → AreSwitchesOf app spans rows }
{}
