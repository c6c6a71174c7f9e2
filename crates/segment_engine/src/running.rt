//! What goes on of a segment, half bit by half bit.

use crate::apart::Watch;
use mac_transmit::Transmitter;
use manchester_line::Sym;
use reception_laws::{LateReceiver, Teller};
use tap_lines::{Line, LoudTaps};
use window_room::RowRoom;

/// A segment before half bit `t`: its stations, which stand behind from half bit `from` on, the lines of its taps, and
/// what was logged and captured. `piece` has room for what a tap hears in several half bits. What is further back on a
/// line than `far` half bits reaches no other tap. `loud` and `late` have room for all taps: they list the lines that
/// sound in a window, and those that a station that stands behind may hear.
#[derive(Drop)]
pub struct Running {
    pub t: u64,
    pub senders: Vec<Transmitter>,
    pub receivers: Vec<LateReceiver>,
    pub watches: Vec<Watch>,
    pub teller: Teller,
    pub lines: Vec<Line>,
    pub far: u64,
    pub loud: LoudTaps,
    pub late: LoudTaps,
    pub from: u64,
    pub piece: Vec<Sym>,
    pub room: RowRoom,
}
