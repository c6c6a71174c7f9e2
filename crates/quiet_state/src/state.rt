//! What a network that is quiet goes on from.
use collision_log::Rows;
use lists::List;
use mac_transmit::SenderState;
use network::Captures;
use port_partition::PortGuard;

/// The states of the stations' senders, in order of the stations.
pub type SenderList = List<SenderState>;

/// The guards of the ports of all repeaters, in order of the repeaters and then of their ports.
pub type GuardList = List<PortGuard>;

/// Numbers, one for each of some things in their order.
pub type NumberList = List<u32>;

/// A quiet network before half bit `t`, counted from 0. `rests` are the half bits that each port still rests, 0 to 191,
/// in the order of `guards`. `rows` and `captures` are those of the half bits before `t`.
#[derive(Drop)]
pub struct NetState {
    pub t: u64,
    pub senders: SenderList,
    pub guards: GuardList,
    pub rests: NumberList,
    pub rows: Rows,
    pub captures: Captures,
}
