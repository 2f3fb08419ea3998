//! What holds of every run, over the definitions alone.
ghost use Rattle.std.specs.Prelude.{◌≡◌, ◌≤◌, ◌<◌, ◌+◌, ◌↔◌, ℕ, [], ◌∷◌, nat_lt, Contains};
ghost use Rattle.std.specs.Prelude.{IsTrue, Some, count_by, length, slice_get};
ghost use Rattle.std.specs.List.Sorted.{IsNonDecreasingBy};
ghost use Rattle.aeth_base.specs.declared.ids.Channel.{Channel};
ghost use Rattle.aeth_header.specs.Header.{IsPackable, next_word};
ghost use Rattle.aeth_server.specs.Landing.{IsDue, WaitsAlone};
ghost use Rattle.aeth_server.specs.PrivateServer.{landed, taken};
ghost use Rattle.aeth_server.specs.Shape.{IsGranted};
ghost use Rattle.aeth_trace.specs.Words.{words_on};
ghost use Rattle.aeth_report.specs.Alike.{IsGivenAlike};
ghost use Rattle.aeth_report.specs.Bounds.{IsLandingOf, IsLoggedBy, IsLoggedInTime};
ghost use Rattle.aeth_report.specs.Carries.{IsCarried, IsSendable, carries, flit_at, header_at};
ghost use Rattle.aeth_report.specs.Flows.{Flow, Run, flow_of, server_of, sessions_in};
ghost use Rattle.aeth_report.specs.Regular.{IsRegular, offered_in};
ghost use Rattle.aeth_report.specs.RunLog.{channel_log, flow_log, log_of};
ghost use Rattle.aeth_report.specs.Sessions.{AreTogether, IsInUse};
ghost use Rattle.aeth_report.specs.Sound.{IsSound, IsWithinLimits};
ghost use Rattle.aeth_report.specs.declared.log.Landing.{Landing};
ghost use Rattle.aeth_report.specs.declared.session.Close.{Close};
ghost use Rattle.aeth_report.specs.declared.session.Session.{Session};

/// Two sessions with a common cycle are of one group, one of whose use cases has both connections; and
/// of one connection they are one.
pub fn sessions_meet()
    ensures group { (run : Run) → IsSound run → (c d t : ℕ) (s e : Session)
        → Contains (sessions_in run c) s → Contains (sessions_in run d) e → IsInUse s t
        → IsInUse e t → s.group.0 ≡ e.group.0 }
    ensures together { (run : Run) → IsSound run → (c d t : ℕ) (s e : Session)
        → Contains (sessions_in run c) s → Contains (sessions_in run d) e → IsInUse s t
        → IsInUse e t → AreTogether run.design.groups s.group.0 c d }
    ensures alone { (run : Run) → IsSound run → (c t i j : ℕ) (s e : Session)
        → slice_get (sessions_in run c) i ≡ Some s → slice_get (sessions_in run c) j ≡ Some e
        → IsInUse s t → IsInUse e t → i ≡ j }
{}

/// A session stops accepting words no earlier than it goes. What it has sent by its stop has landed by its
/// finish. A session that goes after another one stops accepting words goes once that one has
/// finished: channels that a switch opens are in use only when what was sent on those that it closes
/// has landed.
pub fn sessions_close()
    ensures begins { (run : Run) → IsSound run → (c : ℕ) (s : Session)
        → Contains (sessions_in run c) s → (close : Close) → s.close ≡ Some close
        → s.go ≤ close.until }
    ensures follow { (run : Run) → IsSound run → (c d : ℕ) (s e : Session)
        → Contains (sessions_in run c) s → Contains (sessions_in run d) e → (close : Close)
        → s.close ≡ Some close → close.until < e.go → close.fin ≤ e.go }
    ensures landed { (run : Run) → IsSound run → (channel : Channel) (session : Session)
        → Contains (sessions_in run channel.conn.0) session
        → (server_of run channel session).stop + (server_of run channel session).shape.path_delay
        ≤ (server_of run channel session).finish }
{}

/// A link carries one flit at most in each cycle: that of one session, at one place of its path. A
/// flit leaves its path before its session finishes.
pub fn links_carry()
    ensures one { (run : Run) → IsSound run → (l t : ℕ) → length (carries run l t) ≤ 1 }
    ensures alone { (run : Run) → IsSound run → (l t c i u : ℕ) (flow : Flow)
        → IsCarried run l t c i u flow → carries run l t ≡ flit_at flow i u ∷ [] }
    ensures goes { (run : Run) → IsSound run → (l t c i u : ℕ) (flow : Flow)
        → IsCarried run l t c i u flow → flow.server.go ≤ t }
    ensures unfinished { (run : Run) → IsSound run → (l t c i u : ℕ) (flow : Flow)
        → IsCarried run l t c i u flow → t < flow.server.finish }
{}

/// A flit moves on by one hop at each place of its path: its header is that of the place before, behind
/// one port.
pub fn flits_hop()
    ensures packable { (flow : Flow) → IsSendable flow → (i u : ℕ)
        → IsPackable (header_at flow i u) }
    ensures next { (flow : Flow) → IsSendable flow → (i u : ℕ)
        → (flit_at flow (i + 1) u).header ≡ next_word (flit_at flow i u).header }
{}

/// Each word of a channel that is offered within the run is accepted by one of its sessions, or is
/// outside of all.
pub fn words_are_accounted()
    ensures { (run : Run) → IsSound run → (channel : Channel)
        → offered_in (channel_log run channel) + (channel_log run channel).outside
        ≡ count_by (λ row. nat_lt row.cycle run.cycles) (words_on run.words channel) }
{}

/// The log of a run is regular for its application.
pub fn logs_are_regular()
    ensures { (run : Run) → IsSound run → IsWithinLimits run
        → IsRegular run.design.app (log_of run) }
{}

/// A session has landed and taken by its finish all that it ever does: its counts in the log are
/// those at the end of the run. It has ended where its finish is before that.
pub fn counts_are_final()
    ensures landed { (run : Run) → IsSound run → (channel : Channel) (session : Session)
        → Contains (sessions_in run channel.conn.0) session
        → (flow_log run.cycles (flow_of run channel session)).landed
        ≡ landed (server_of run channel session) run.cycles }
    ensures taken { (run : Run) → IsSound run → (channel : Channel) (session : Session)
        → Contains (sessions_in run channel.conn.0) session
        → (flow_log run.cycles (flow_of run channel session)).taken
        ≡ taken (server_of run channel session) run.cycles }
    ensures ended { (run : Run) (channel : Channel) (session : Session)
        → IsTrue (flow_log run.cycles (flow_of run channel session)).ended
        ↔ ((server_of run channel session).finish < run.cycles) }
{}

/// Each row of a session's log is the landing of its word on the private server, within the run and
/// before the session finishes.
pub fn rows_are_landings()
    ensures { (run : Run) → IsSound run → (channel : Channel) (session : Session)
        → Contains (sessions_in run channel.conn.0) session → (k : ℕ) (row : Landing)
        → slice_get (flow_log run.cycles (flow_of run channel session)).rows k ≡ Some row
        → IsLandingOf run channel session (k + 1) row }
{}

/// A word that is due by a cycle of the run has a row, and has landed by that cycle and in time,
/// while the receiver keeps its delay: the rate times the cycle of its landing is at most its due
/// time. The credits may bind, and words may come faster than the rate without limit.
pub fn due_words_land()
    ensures lands { (run : Run) → IsSound run → IsNonDecreasingBy (λ row. row.cycle) run.words
        → (channel : Channel) (session : Session)
        → Contains (sessions_in run channel.conn.0) session
        → IsGranted (server_of run channel session).shape → (i t : ℕ)
        → IsDue (server_of run channel session) i t → t < run.cycles
        → IsLoggedBy (flow_log run.cycles (flow_of run channel session)) i t }
    ensures in_time { (run : Run) → IsSound run → IsNonDecreasingBy (λ row. row.cycle) run.words
        → (channel : Channel) (session : Session)
        → Contains (sessions_in run channel.conn.0) session
        → IsGranted (server_of run channel session).shape → (i t : ℕ)
        → IsDue (server_of run channel session) i t → t < run.cycles
        → IsLoggedInTime (server_of run channel session)
        (flow_log run.cycles (flow_of run channel session)) i }
{}

/// A word that waits alone, with a credit left, has a row within the latency for which the slots are
/// suitable, whatever the receiver does.
pub fn single_words_land()
    ensures { (run : Run) → IsSound run → IsNonDecreasingBy (λ row. row.cycle) run.words
        → (channel : Channel) (session : Session)
        → Contains (sessions_in run channel.conn.0) session
        → IsGranted (server_of run channel session).shape → (need i a latency : ℕ)
        → WaitsAlone (server_of run channel session) need i a latency
        → a + latency < run.cycles
        → IsLoggedBy (flow_log run.cycles (flow_of run channel session)) i (a + latency) }
{}

/// The log of a channel rests on nothing but what it is given: two runs that give the same to a
/// channel have equal logs of it, whatever all else is.
pub fn channels_are_independent()
    ensures { (one other : Run) → (channel : Channel) → IsGivenAlike one other channel
        → channel_log one channel ≡ channel_log other channel }
{}
