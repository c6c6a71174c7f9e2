//! Laws of the definitions.
ghost use Rattle.std.specs.Prelude.{◌≡◌, ◌≤◌, ◌<◌, ◌+◌, ℕ, length, flat_map, slice_index, slice_index_or};
ghost use Rattle.layout.specs.declared.lines.PortLine.{PortLine};
ghost use Rattle.load_plan.specs.declared.plan.Plan.{Plan};
ghost use Rattle.network.specs.Net.{net, emitted_before};
ghost use Rattle.network.specs.Signals.{CablesCarry, RepeatersRepeat, StationAttemptsAreLawful, AttemptsAreLogged, PlansHoldFrames};
ghost use Rattle.network.specs.Hearing.{heard_of};
ghost use Rattle.layout.specs.Taps.{taps_of};
ghost use Rattle.network.specs.Times.{heard, emitted, decided, earlier, port_delays};

/// What a tap emitted `back` half bits before half bit `t` it emitted in half bit `t - back`, and before
/// half bit 0 every tap emitted Idle; and so for what was decided for a port.
pub fn history_is_time()
    ensures emitted { (plan : Plan) (t back q : ℕ) → 1 ≤ back → emitted_before (net plan t).emitted back q ≡ earlier (emitted plan q) t back }
    ensures decided { (plan : Plan) (t back e : ℕ) → 1 ≤ back → emitted_before (net plan t).decided back e ≡ earlier (decided plan e) t back }
{}

/// What a tap hears in half bit `t` is the mix, over the other taps of its segment, of what each emitted as many
/// half bits before `t` as it is away, and Idle before half bit 0 (profile).
pub fn taps_hear_others()
    ensures { (plan : Plan) (t p : ℕ) (d : PortLine) → p < length (taps_of plan.layout) →
        heard plan p t ≡ heard_of (λ back q. earlier (emitted plan q) t back) p (slice_index_or (taps_of plan.layout) p d) 0 (taps_of plan.layout) }
{}

/// What a repeater's port, counted from 0 over all ports, emits in half bit `t` was decided as many half bits before
/// `t` as its repeater's delay, and is Idle before there is such a half bit (profile).
pub fn ports_emit_late()
    ensures { (plan : Plan) (t e : ℕ) → e < length (flat_map (λ r. r.ports) plan.layout.repeaters) →
        emitted plan (length plan.layout.stations + e) t ≡ earlier (decided plan e) t (slice_index (port_delays plan.layout) e) }
{}

/// What a tap emits, each other tap of its segment hears as many half bits later as it is away (clause 8, in the
/// profile's half bits).
pub fn cables_carry()
    ensures { CablesCarry }
{}

/// What an open port of a repeater hears, each of its other ports that doesn't rest then emits, after the repeater's
/// delay: a signal, though not that symbol (clause 9).
pub fn repeaters_repeat()
    ensures { RepeatersRepeat }
{}

/// Each attempt of a station in the network of a plan whose queues hold frames keeps what a sender promises.
pub fn attempts_are_lawful()
    ensures { StationAttemptsAreLawful }
{}

/// An attempt that ends within the run has its row among the rows of the run, in the half bit of its end.
pub fn attempts_are_logged()
    ensures { AttemptsAreLogged }
{}

/// The queues of a plan as it is made of a layout and its loads hold frames.
pub fn plans_hold_frames()
    ensures { PlansHoldFrames }
{}
