//! How much a station can log and capture in so many half bits, whatever comes: calls without a body, whose contracts
//! are the laws.
ghost use Rattle.std.specs.Prelude.{◌≡◌, ◌<◌, ◌≤◌, ◌+◌, ◌*◌, ◌/◌, ℕ, suc, Bool, List, All, Some, length, map, min};
ghost use Rattle.mac_parameters.specs.Parameters.{check_sequence, half_bits_an_octet, preamble_length, most_half_bits};
ghost use Rattle.collision_log.specs.declared.row.Body.TheVariants.{Received};
ghost use Rattle.manchester_line.specs.declared.Sym.{Sym};
ghost use Rattle.mac_receive.specs.Receiver.{Receiving, receiver_bodies, receiver_step};
ghost use Rattle.mac_transmit.specs.Sender.{Sender, IsSender, sender_step};
ghost use Rattle.window_room.specs.NeededRoom.{IsDemandWithin, both_demands, event_demand, row_demand, reception_demand, sender_demand, window_demand, station_demand, stations_demand, demand_times};
ghost use Rattle.mac_receive.specs.KeptReceiver.{KeptReception};
ghost use Rattle.network.specs.Rows.{repeater_bodies};
ghost use Rattle.repeater_core.specs.Step.{RepeaterDevice, after};
ghost use Rattle.window_room.specs.RepeaterRows.{repeater_rows_left, repeater_window_rows};
ghost use Rattle.window_room.specs.Receptions.{HeardHalf, reception_bodies, count_received, frame_octets, octets_received, heard_half, least_reception};
ghost use Rattle.window_room.specs.Sendings.{least_turn, sending_bodies};
ghost use Rattle.window_room.specs.Signals.{SignalsAreLong};

/// Whatever a receiver hears and its station sends, it receives at most one frame, and one more for each least
/// reception and the half bit after it that is Idle.
pub fn receptions_are_few()
    ensures count { (r : Receiving) (halves : List HeardHalf) →
        count_received (reception_bodies r halves) ≤ 1 + length halves / least_reception }
    ensures exact { (r : Receiving) (halves : List HeardHalf) →
        suc least_reception * count_received (reception_bodies r halves)
        ≤ length halves + min least_reception (length r.halves) }
{}

/// The octets of all the frames that it receives are at most those of one frame, and one more for each 16 half bits;
/// and each frame has at most the most.
pub fn octets_are_few()
    ensures all { (r : Receiving) (halves : List HeardHalf) →
        octets_received (reception_bodies r halves) ≤ r.most + check_sequence + length halves / half_bits_an_octet }
    ensures each { (r : Receiving) (halves : List HeardHalf) →
        All (λ body. frame_octets body ≤ r.most + check_sequence) (reception_bodies r halves) }
{}

/// It has at most one row for each two half bits, and one more where their number is odd.
pub fn rows_are_few()
    ensures { (r : Receiving) (halves : List HeardHalf) →
        length (reception_bodies r halves) ≤ (length halves + 1) / 2 }
{}

/// What happens while the station sends all the time or not at all is what happens in these half bits.
pub fn leaps_are_events()
    ensures { (r : Receiving) (heard : List Sym) (sending : Bool) →
        receiver_bodies r heard sending ≡ reception_bodies r (map (heard_half sending) heard) }
{}

/// Where each signal that ends in these half bits has at least so many half bits, of which the first had u before them,
/// it has at most one row, and one more for each signal and the half bit that is Idle after it.
pub fn long_signals_give_few_rows()
    ensures { (r : Receiving) (halves : List HeardHalf) (least u : ℕ) →
        SignalsAreLong least u halves → (0 < length r.halves → 0 < u) →
        length (reception_bodies r halves) ≤ 1 + length halves / (least + 1) }
{}

/// Whatever a sender hears, it has at most one row, and one more for each preamble and start frame delimiter; and since
/// its gaps are kept, one more for each interframe gap beside that.
pub fn sendings_are_few()
    ensures gaps { (s : Sender) (heard : List Sym) → IsSender s → s.t + length heard ≤ most_half_bits →
        length (sending_bodies s heard) ≤ 1 + length heard / least_turn }
    ensures any { (s : Sender) (heard : List Sym) →
        length (sending_bodies s heard) ≤ 1 + length heard / preamble_length }
{}

/// What n half bits can need of a receiver in any state is at most one known demand, and of a sender too; and of what n
/// + 1 half bits can need, the first one leaves what n can need when what happens in it is taken.
pub fn room_is_paid()
    ensures any { (most h n : ℕ) → IsDemandWithin (reception_demand most h n) (window_demand most n) }
    ensures any_sender { (s : Sender) (n : ℕ) → (sender_demand n s).rows ≤ 1 + n / preamble_length }
    ensures receivers { (r : Receiving) (heard : Sym) (sending : Bool) (n : ℕ) →
        IsDemandWithin
        (both_demands
        (reception_demand r.most (length (receiver_step r heard sending).state.halves) n)
        (event_demand (receiver_step r heard sending).event))
        (reception_demand r.most (length r.halves) (suc n)) }
    ensures senders { (s : Sender) (heard : Sym) (n : ℕ) →
        IsDemandWithin
        (both_demands (sender_demand n (sender_step s heard).state) (row_demand (sender_step s heard).event))
        (sender_demand (suc n) s) }
{}

/// What n half bits can need of stations in any state is at most one known demand for each.
pub fn stations_need_little()
    ensures { (senders : List Sender) (receivers : List KeptReception) (n most : ℕ) → All (λ k. k.most ≡ most) receivers →
        IsDemandWithin
        (stations_demand n senders receivers) (demand_times (length receivers) (station_demand most n)) }
{}

/// Whatever its ports hear, of the rows that n + 1 half bits can give of a repeater the first one leaves what n can
/// give when its own rows are taken; and in any state they are at most a known number: for each port two partitions and
/// reconnections, and one more for each half of the reconnection's clean run, and one halt, and one more for each
/// unbroken output; and one collision that begins, and one more for each fragment extension.
pub fn repeater_rows_are_few()
    ensures paid { (r : RepeaterDevice) (heard : List Sym) (n : ℕ) →
        repeater_rows_left n (after heard r) + length (repeater_bodies heard r) ≤ repeater_rows_left (suc n) r }
    ensures any { (r : RepeaterDevice) (n : ℕ) → length r.counts ≡ length r.guards →
        repeater_rows_left n r ≤ repeater_window_rows (length r.guards) n }
{}

/// A frame that is received has at most as many octets as its row tells, which `keep_reception` asks for.
pub fn frames_are_as_told()
    ensures { (r : Receiving) (heard : Sym) (sending : Bool) (n : ℕ) →
        (receiver_step r heard sending).event ≡ Some (Received n) →
        length (receiver_step r heard sending).octets ≤ n }
{}
