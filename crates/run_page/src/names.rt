//! Names of segments and devices, and numbers at the end of a text.
ghost use Rattle.std.specs.Prelude.{◌≡◌, ◌++◌, [], OnOk, decimal, slice_get, unwrap_or};
ghost use Rattle.layout.specs.Sound.{device_names};
ghost use Rattle.run_page.specs.LayoutLines.{segment_name};
ghost use Rattle.run_page.specs.SignalLines.{repeater_name, station_name};

use layout::Layout;
use lists::{List, OutOfMemory};

/// Puts a number in decimal at the end of a text.
pub fn add_number(text: &mut List<u8>, number: u64) -> Result<(), OutOfMemory>
    ensures { OnOk result (text.new ≡ text.old ++ decimal number) }
{
    text.extend(itoa::Buffer::new().format(number).as_bytes())
}

/// The name of a segment, or an empty one where there is no such segment.
pub fn name_of_segment(layout: &Layout, segment: u32) -> &str
    ensures { result.now ≡ segment_name layout.now segment }
{
    match layout.segments.as_slice().get(segment as usize) {
        Some(segment) => segment.name.as_str(),
        None => "",
    }
}

/// The name of a station, or an empty one where there is no such station.
pub fn name_of_station(layout: &Layout, station: usize) -> &str
    ensures { result.now ≡ station_name layout.now station }
{
    match layout.stations.as_slice().get(station) {
        Some(station) => station.name.as_str(),
        None => "",
    }
}

/// The name of a repeater, or an empty one where there is no such repeater.
pub fn name_of_repeater(layout: &Layout, repeater: usize) -> &str
    ensures { result.now ≡ repeater_name layout.now repeater }
{
    match layout.repeaters.as_slice().get(repeater) {
        Some(repeater) => repeater.name.as_str(),
        None => "",
    }
}

/// The name of a device, of which the stations are the first, or an empty one where there is no such device.
pub fn name_of_device(layout: &Layout, device: usize) -> &str
    ensures { result.now ≡ unwrap_or (slice_get (device_names layout.now) device) [] }
{
    let stations = layout.stations.len();
    if device < stations {
        return name_of_station(layout, device);
    }
    name_of_repeater(layout, device - stations)
}
