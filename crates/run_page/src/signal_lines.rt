//! The lines of a page that tell what the taps of a network emit.
ghost use Rattle.std.specs.Prelude.{◌≡◌, ◌<◌, ◌^◌, ◌++◌, OnOk, flat_map, length, map};
ghost use Rattle.std.specs.List.{range_with_len};
ghost use Rattle.layout.specs.Sound.{IsSound};
ghost use Rattle.layout.specs.declared.ways.Attachment.TheVariants.{Port, Station};
ghost use Rattle.tap_signals.specs.Taps.{taps_in_order};
ghost use Rattle.run_page.specs.SignalLines.{kind_words, lines_of_taps, signal_line, signal_lines, word_of_tap};

use crate::names::{add_number, name_of_repeater, name_of_station};
use layout::{Attachment, Layout};
use lists::{List, OutOfMemory};
use tap_signals::{SignalKind, Stretch, Stretches};

/// Puts the words for what a tap emits at the end of a text.
fn add_kind(text: &mut List<u8>, kind: SignalKind) -> Result<(), OutOfMemory>
    ensures { OnOk result (text.new ≡ text.old ++ kind_words kind) }
{
    match kind {
        SignalKind::Frame => text.extend(b"frame"),
        SignalKind::Jam => text.extend(b"jam"),
        SignalKind::Repeat { port } => {
            text.extend(b"repeat ")?;
            add_number(text, u64::from(port) + 1)
        }
        SignalKind::Extend => text.extend(b"extend"),
    }
}

/// Puts the word that names a tap at the end of a text.
fn add_tap(text: &mut List<u8>, layout: &Layout, tap: Attachment) -> Result<(), OutOfMemory>
    ensures { OnOk result (text.new ≡ text.old ++ word_of_tap layout.now tap) }
{
    match tap {
        Attachment::Station(station) => text.extend(name_of_station(
            layout,
            station as usize,
        ).as_bytes()),
        Attachment::Port { repeater, port } => {
            text.extend(name_of_repeater(layout, repeater as usize).as_bytes())?;
            text.extend(b":")?;
            add_number(text, u64::from(port) + 1)
        }
    }
}

/// Puts the line of a tap's stretch at the end of a text.
#[tactic(auto, unfolding(crate::specs::SignalLines::signal_line))]
fn add_signal(
    text: &mut List<u8>,
    layout: &Layout,
    tap: Attachment,
    stretch: Stretch,
) -> Result<(), OutOfMemory>
    ensures { OnOk result (text.new ≡ text.old ++ signal_line (word_of_tap layout.now tap) stretch) }
{
    text.extend(b"signal ")?;
    add_tap(text, layout, tap)?;
    text.extend(b" ")?;
    add_number(text, stretch.start)?;
    text.extend(b" ")?;
    add_number(text, stretch.end)?;
    text.extend(b" ")?;
    add_kind(text, stretch.kind)?;
    text.extend(b"\n")
}

/// Puts the lines of a tap's stretches at the end of a text.
fn add_tap_signals(
    text: &mut List<u8>,
    layout: &Layout,
    tap: Attachment,
    stretches: &[Stretch],
) -> Result<(), OutOfMemory>
    ensures { OnOk result (text.new ≡ text.old ++ flat_map (signal_line (word_of_tap layout.now tap)) stretches.now) }
{
    for stretch in stretches {
        add_signal(text, layout, tap, *stretch)?;
    }
    Ok(())
}

/// Puts the lines of the stations' stretches at the end of a text, by a list for each of them.
fn add_station_signals(
    text: &mut List<u8>,
    layout: &Layout,
    lists: &[Stretches],
) -> Result<(), OutOfMemory>
    requires { length lists.now < 2 ^ 32 }
    ensures { OnOk result (text.new ≡ text.old
        ++ lines_of_taps layout.now (map Station (range_with_len 0 (length lists.now))) lists.now) }
{
    'lists: for k in 0..lists.len() {
        let tap = Attachment::Station(k as u32);
        add_tap_signals(text, layout, tap, lists[k].as_slice())?;
    }
    Ok(())
}

/// Puts the lines of the stretches of a repeater's ports at the end of a text, by a list for each of them.
fn add_port_signals(
    text: &mut List<u8>,
    layout: &Layout,
    repeater: u32,
    lists: &[Stretches],
) -> Result<(), OutOfMemory>
    requires { length lists.now < 2 ^ 32 }
    ensures { OnOk result (text.new ≡ text.old
        ++ lines_of_taps layout.now (map (Port repeater) (range_with_len 0 (length lists.now))) lists.now) }
{
    'lists: for k in 0..lists.len() {
        let tap = Attachment::Port {
            repeater,
            port: k as u32,
        };
        add_tap_signals(text, layout, tap, lists[k].as_slice())?;
    }
    Ok(())
}

/// Puts the lines of what all taps of a layout emit at the end of a text, by a list for each of them.
pub fn add_signals(
    text: &mut List<u8>,
    layout: &Layout,
    lists: &[Stretches],
) -> Result<(), OutOfMemory>
    requires sound { IsSound layout.now }
    requires taps { length lists.now ≡ length (taps_in_order layout.now) }
    ensures { OnOk result (text.new ≡ text.old ++ signal_lines layout.now lists.now) }
{
    let repeaters = layout.repeaters.as_slice();
    let (stations, ports) = lists.split_at(layout.stations.len());
    add_station_signals(text, layout, stations)?;
    let mut rest = ports;
    'repeaters: for r in 0..repeaters.len() {
        let (ports, others) = rest.split_at(repeaters[r].ports.len());
        add_port_signals(text, layout, r as u32, ports)?;
        rest = others;
    }
    Ok(())
}
