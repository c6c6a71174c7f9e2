//! Parts behind a gate.
ghost use Rattle.std.specs.Prelude.{◌≡◌};

use lists::OutOfMemory;
use net_parts::{Parcel, Part};
use outside::Gate;

/// A part that passes a gate at the beginning of each of its windows. All else it does as the part that it was made of.
#[derive(Drop)]
pub struct Gated<'g, P: Part, G: Gate> {
    part: P,
    gate: &'g G,
}

impl<'g, P: Part, G: Gate> Gated<'g, P, G> {
    /// A part that has made no window, behind a gate.
    pub fn new(part: P, gate: &'g G) -> Gated<'g, P, G>
        requires { P.at part ≡ 0 }
        ensures { result.part ≡ part }
    {
        Gated { part, gate }
    }

    /// The part as it stands.
    pub fn into_part(self) -> P
        ensures { result ≡ self.entry.part }
    {
        let Gated { part, gate: _ } = self;
        part
    }
}

impl<'g, P: Part, G: Gate> Part for Gated<'g, P, G> {
    ghost plan = { λ s. P.plan s.part };

    ghost number = { λ s. P.number s.part };

    ghost at = { λ s. P.at s.part };

    ghost reserved = { λ s. P.reserved s.part };

    ghost keeps = { λ s. P.keeps s.part };

    fn part(&self) -> u32 {
        self.part.part()
    }

    fn window(&self) -> u64 {
        self.part.window()
    }

    fn windows(&self) -> u64 {
        self.part.windows()
    }

    fn edges(&self) -> &[u32] {
        self.part.edges()
    }

    fn reserve_window(&mut self) -> Result<(), OutOfMemory> {
        self.part.reserve_window()
    }

    fn run_window(&mut self, parcels: &mut [Parcel]) {
        self.gate.enter(self.part.part(), self.part.window());
        self.part.run_window(parcels);
    }

    ghost within = { λ s. P.within s.part };

    ghost stands = { λ s. P.stands s.part };
}
