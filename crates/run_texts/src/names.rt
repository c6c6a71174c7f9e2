//! The names of devices.
ghost use Rattle.std.specs.Prelude.{◌≡◌, [], map, IfOk, slice_get, unwrap_or};
ghost use Rattle.layout.specs.Sound.{device_names};

use layout::Layout;
use lists::OutOfMemory;
use std::alloc::Global;

/// The names of the stations, then of the repeaters.
pub(crate) fn device_names(alloc: Global, layout: &Layout) -> Result<Vec<&str>, OutOfMemory>
    ensures { IfOk result (λ names. map (λ name. name.now) names.items ≡ device_names layout.now) }
{
    let mut names = Vec::new(alloc);
    for station in layout.stations.as_slice() {
        names.push(station.name.as_str())?;
    }
    for repeater in layout.repeaters.as_slice() {
        names.push(repeater.name.as_str())?;
    }
    Ok(names)
}

/// The name of a device, or an empty one where there is no such device.
pub(crate) fn name_of_device<'a>(names: &[&'a str], device: u32) -> &'a str
    ensures { result.now ≡ unwrap_or (slice_get (map (λ name. name.now) names.now) device) [] }
{
    match names.get(device as usize) {
        Some(name) => name,
        None => "",
    }
}
