//! The text of a state.
ghost use Rattle.std.specs.Prelude.{◌≡◌, ◌++◌, OnOk, IfOk, map, flat_map, length};
ghost use Rattle.run_checkpoint.specs.PortNames.{named_port};
ghost use Rattle.run_checkpoint.specs.States.{IsStateOfPlan, lines_of_guards, lines_of_senders, text_of_state};

use crate::guard_line::{add_guard, guard_line};
use crate::places::{PortName, all_ports};
use crate::sender_line::{add_sender, add_time};
use crate::waiting::add_entries;
use layout::StationLine;
use lists::{List, OutOfMemory};
use load_plan::Plan;
use mac_transmit::SenderState;
use port_partition::PortGuard;
use quiet_state::NetState;
use std::alloc::Global;

/// Puts the lines of senders at the end of a text.
fn add_senders(
    text: &mut List<u8>,
    stations: &[StationLine],
    senders: &[SenderState],
) -> Result<(), OutOfMemory>
    requires { length stations.now ≡ length senders.now }
    ensures { OnOk result (text.new ≡ text.old ++ flat_map (λ line. line) (lines_of_senders stations.now senders.now)) }
{
    'stations: for k in 0..stations.len() {
        add_sender(text, stations[k].name.as_str(), &senders[k])?;
    }
    Ok(())
}

/// Puts the lines of ports at the end of a text.
fn add_guards(
    text: &mut List<u8>,
    ports: &[PortName<'_>],
    guards: &[PortGuard],
    rests: &[u32],
) -> Result<(), OutOfMemory>
    requires guards { length ports.now ≡ length guards.now }
    requires rests { length ports.now ≡ length rests.now }
    ensures { OnOk result (text.new ≡ text.old ++ flat_map (λ line. line) (lines_of_guards (map named_port ports.now) guards.now rests.now)) }
{
    'ports: for k in 0..ports.len() {
        let line = guard_line(&guards[k], rests[k]);
        add_guard(text, ports[k].name, ports[k].port, &line)?;
    }
    Ok(())
}

/// The text of a state of this plan, from which a run of it can go on.
#[tactic(auto, unfolding(crate::specs::States::text_of_state))]
pub fn state_text(alloc: Global, plan: &Plan, state: &NetState) -> Result<List<u8>, OutOfMemory>
    requires { IsStateOfPlan plan.now state.now }
    ensures { IfOk result (λ text. text ≡ text_of_state plan.now state.now) }
{
    let stations = plan.layout.stations.as_slice();
    let ports = all_ports(alloc, &plan.layout)?;
    let mut text = List::new(alloc);
    add_time(&mut text, state.t)?;
    add_senders(&mut text, stations, state.senders.as_slice())?;
    add_guards(
        &mut text,
        ports.as_slice(),
        state.guards.as_slice(),
        state.rests.as_slice(),
    )?;
    add_entries(
        alloc,
        &mut text,
        &plan.layout,
        state.rows.as_slice(),
        &state.captures,
    )?;
    text.extend(b"end\n")?;
    Ok(text)
}
