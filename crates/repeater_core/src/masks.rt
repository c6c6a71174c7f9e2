//! Sets of ports as numbers, bit p for port p.
ghost use Rattle.std.specs.Prelude.{◌≡◌, ◌<◌, ◌+◌, ◌^◌, if◌then◌else◌};
ghost use Rattle.mac_parameters.specs.Parameters.{most_ports};

/// The mask with this port too, if it is `set`. The mask has ports below this one alone.
pub fn with_port(mask: u32, port: usize, set: bool) -> u32
    requires port { port < most_ports }
    requires below { mask < 2 ^ port }
    ensures sum { result ≡ mask + (if set then 2 ^ port else 0) }
    ensures below { result < 2 ^ (port + 1) }
{
    if set { mask + (1 << port) } else { mask }
}
