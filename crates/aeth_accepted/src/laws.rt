//! What holds of every run of accepted inputs, over the definitions alone.
ghost use Rattle.std.specs.Prelude.{◌≡◌, ◌≤◌, ◌<◌, ◌+◌, ◌⊎◌, ℕ, Contains, IsTrue, length, map};
ghost use Rattle.aeth_base.specs.declared.ids.Channel.{Channel};
ghost use Rattle.aeth_base.specs.declared.ids.UseId.{UseId};
ghost use Rattle.aeth_server.specs.Landing.{IsDue, WaitsAlone};
ghost use Rattle.aeth_server.specs.ChannelShape.{shape_of};
ghost use Rattle.aeth_server.specs.Shape.{IsGranted};
ghost use Rattle.aeth_report.specs.Bounds.{IsLoggedBy, IsLoggedInTime};
ghost use Rattle.aeth_report.specs.Carries.{carries};
ghost use Rattle.aeth_report.specs.Flows.{flow_of, server_of, sessions_in};
ghost use Rattle.aeth_report.specs.Regular.{IsRegular};
ghost use Rattle.aeth_report.specs.RunLog.{flow_log, log_of};
ghost use Rattle.aeth_report.specs.Sound.{IsSound, IsWithinLimits};
ghost use Rattle.aeth_report.specs.declared.session.Session.{Session};
ghost use Rattle.aeth_group.specs.Members.{group_at, groups_of, has_at, is_kept};
ghost use Rattle.aeth_ni.specs.Program.{entries_after};
ghost use Rattle.aeth_ni.specs.declared.write.Write.{Write};
ghost use Rattle.aeth_reconf.specs.Rows.{AreWithin, Touches, channels_that, rows_entered, rows_left};
ghost use Rattle.aeth_reconf.specs.Rows.{rows_that, switch_program};
ghost use Rattle.aeth_report.specs.Design.{shape_at};
ghost use Rattle.aeth_tables.specs.Tables.{tables_of};
ghost use Rattle.aeth_accepted.specs.Inputs.{AreAccepted, Inputs, IsTabled, design_of, row_at};
ghost use Rattle.aeth_accepted.specs.Inputs.{run_of};
ghost use Rattle.aeth_accepted.specs.Wishes.{IsOfferedAlone, latency_at};

/// The run of accepted inputs is sound and within the limits, and the channels of its sessions are
/// granted what they ask for.
pub fn runs_are_sound()
    ensures sound { (inputs : Inputs) → AreAccepted inputs → IsSound (run_of inputs) }
    ensures limits { (inputs : Inputs) → AreAccepted inputs → IsWithinLimits (run_of inputs) }
    ensures granted { (inputs : Inputs) → AreAccepted inputs → (channel : Channel)
        (session : Session) → Contains (sessions_in (run_of inputs) channel.conn.0) session
        → IsGranted (server_of (run_of inputs) channel session).shape }
{
    aeth_tables::laws::switches();
}

/// The tables of a use case have the rows and the shapes of its channels in its group, in channel
/// order. A session runs by these: its flow has the route, the remote queue, the credits and the shape
/// of its channel's row, so the rate and the latency that are printed are those by which its words are
/// due.
pub fn sessions_run_by_tables()
    ensures rows { (inputs : Inputs) → AreAccepted inputs → (u : UseId)
        → u.0 < length inputs.app.uses
        → (tables_of inputs.chip inputs.app (groups_of inputs.app) inputs.plan u).rows
        ≡ rows_that (groups_of inputs.app) (row_at (design_of inputs))
        (group_at (groups_of inputs.app) u.0) (has_at (groups_of inputs.app) u.0) }
    ensures shapes { (inputs : Inputs) → AreAccepted inputs → (u : UseId)
        → u.0 < length inputs.app.uses
        → map shape_of
        (tables_of inputs.chip inputs.app (groups_of inputs.app) inputs.plan u).shapes
        ≡ map (λ channel. shape_at (design_of inputs) channel (group_at (groups_of inputs.app) u.0))
        (channels_that (groups_of inputs.app) (has_at (groups_of inputs.app) u.0)) }
    ensures flows { (inputs : Inputs) (channel : Channel) (session : Session)
        → IsTabled (row_at (design_of inputs) session.group.0 channel)
        (flow_of (run_of inputs) channel session) }
{}

/// Through each switch of accepted inputs the entries of all interfaces stay within those of one
/// use case, and no write names a slot or the queue of a channel that is kept.
pub fn kept_channels_are_untouched()
    ensures within { (inputs : Inputs) → AreAccepted inputs → (u v count : ℕ)
        → (let groups = groups_of inputs.app in let row_of = row_at (design_of inputs) in
        let entries = entries_after (rows_left groups row_of u v)
        (switch_program groups row_of u v) count in
        AreWithin entries (rows_left groups row_of u v)
        ⊎ AreWithin entries (rows_entered groups row_of u v)) }
    ensures untouched { (inputs : Inputs) → AreAccepted inputs → (u v : ℕ) (channel : Channel)
        → IsTrue (is_kept (groups_of inputs.app) u v channel.conn.0) → (write : Write)
        → Contains (switch_program (groups_of inputs.app) (row_at (design_of inputs)) u v) write
        → Touches write
        (row_at (design_of inputs) (group_at (groups_of inputs.app) u) channel) → ⊥ }
{
    aeth_reconf::laws::entries_stay_within();
    aeth_reconf::laws::kept_channels_are_untouched();
}

/// For all accepted inputs a link carries one flit at most in each cycle, and the log is regular.
pub fn links_carry_one()
    ensures one { (inputs : Inputs) → AreAccepted inputs → (l t : ℕ)
        → length (carries (run_of inputs) l t) ≤ 1 }
    ensures regular { (inputs : Inputs) → AreAccepted inputs
        → IsRegular inputs.app (log_of (run_of inputs)) }
{
    runs_are_sound();
    aeth_report::laws::links_carry();
    aeth_report::laws::logs_are_regular();
}

/// For all accepted inputs a word that is due by a cycle of the run has landed by then and in time,
/// while its receiver keeps its delay. A word that waits alone, with a credit left, lands within each
/// latency for which the slots are suitable, whatever the receiver does: so within that which its
/// channel wishes.
pub fn words_land_in_time()
    ensures lands { (inputs : Inputs) → AreAccepted inputs → (channel : Channel)
        (session : Session) → Contains (sessions_in (run_of inputs) channel.conn.0) session
        → (i t : ℕ) → IsDue (server_of (run_of inputs) channel session) i t → t < inputs.cycles
        → IsLoggedBy (flow_log inputs.cycles (flow_of (run_of inputs) channel session)) i t }
    ensures in_time { (inputs : Inputs) → AreAccepted inputs → (channel : Channel)
        (session : Session) → Contains (sessions_in (run_of inputs) channel.conn.0) session
        → (i t : ℕ) → IsDue (server_of (run_of inputs) channel session) i t → t < inputs.cycles
        → IsLoggedInTime (server_of (run_of inputs) channel session)
        (flow_log inputs.cycles (flow_of (run_of inputs) channel session)) i }
    ensures alone { (inputs : Inputs) → AreAccepted inputs → (channel : Channel)
        (session : Session) → Contains (sessions_in (run_of inputs) channel.conn.0) session
        → (need i a latency : ℕ)
        → WaitsAlone (server_of (run_of inputs) channel session) need i a latency
        → a + latency < inputs.cycles
        → IsLoggedBy (flow_log inputs.cycles (flow_of (run_of inputs) channel session)) i
        (a + latency) }
    ensures wished { (inputs : Inputs) → AreAccepted inputs → (channel : Channel)
        (session : Session) → Contains (sessions_in (run_of inputs) channel.conn.0) session
        → (i a : ℕ) → IsOfferedAlone (server_of (run_of inputs) channel session) i a
        (latency_at inputs channel) → a + latency_at inputs channel < inputs.cycles
        → IsLoggedBy (flow_log inputs.cycles (flow_of (run_of inputs) channel session)) i
        (a + latency_at inputs channel) }
{
    runs_are_sound();
    aeth_report::laws::due_words_land();
    aeth_report::laws::single_words_land();
}
