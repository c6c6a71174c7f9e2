//! How long the run of a layout is.
ghost use Rattle.std.specs.Prelude.{◌≡◌, ◌≤◌};
ghost use Rattle.layout.specs.Limits.{most_bits};
ghost use Rattle.layout.specs.RunLengths.{run_half_bits};

use crate::lines::Layout;
use mac_parameters::HALF_BITS_A_BIT;

impl Layout {
    /// The half bits of the run.
    pub fn half_bits(&self) -> u64
        requires { self.now.until_bits ≤ most_bits }
        ensures { result ≡ run_half_bits self.now }
    {
        u64::from(HALF_BITS_A_BIT) * self.until_bits
    }
}
