ghost use Rattle.std.specs.Prelude.{◌≡◌, ◌≤◌, ◌<◌};
ghost use Rattle.mac_parameters.specs.Parameters.{attempt_limit};
ghost use Rattle.backoff_draw.specs.Draws.{draw_of, drawn};

use mac_parameters::BACKOFF_LIMIT;
use rand_chacha::ChaCha8Rng;
use rand_core::SeedableRng;
use rand_core::utils::NextWord;
use std::marker::Model;

/// The draws of one station, each the low bits of the next word of a ChaCha8 stream: its key is the
/// seed, and its number that of the station (profile).
#[derive(Drop)]
pub struct Draws {
    rng: ChaCha8Rng,
    seed: u64,
    station: u32,
}

impl Model for Draws {
    ghost use Rattle.std.specs.Prelude.{◌≡◌};
    ghost use Rattle.backoff_draw.specs.Draws.{Drawing, key_of_seed};

    ghost Value = { Drawing };

    ghost view = { λ d. record { seed = d.seed; station = d.station; made = d.rng.word_pos } };

    ghost invariant = { λ d. (d.rng.key ≡ key_of_seed d.seed) × (d.rng.stream ≡ d.station) };
}

impl Draws {
    /// The draws of a station, none of which was made yet. Stations are counted from 0.
    pub fn new(seed: u64, station: u32) -> Draws
        ensures { result ≡ record { seed = seed; station = station; made = 0 } }
    {
        Draws::at(seed, station, 0)
    }

    /// The draws of a station whose next draw is number `j`, counted from 0.
    #[tactic(auto, unfolding(crate::specs::Draws::key_of_seed))]
    pub fn at(seed: u64, station: u32, j: u32) -> Draws
        ensures { result ≡ record { seed = seed; station = station; made = j } }
    {
        let mut key = [0u8; 32];
        key[..8].copy_from_slice(&seed.to_le_bytes());
        let mut rng = ChaCha8Rng::from_seed(key);
        rng.set_stream(u64::from(station));
        rng.set_word_pos(u128::from(j));
        Draws { rng, seed, station }
    }

    /// The station's next draw, a number of slot times below 2^min(n, 10), after its attempt `n`, counted from 1 and
    /// not the last (4.2.3.2.5).
    #[tactic(auto, unfolding(crate::specs::Draws::word))]
    pub fn draw(&mut self, n: u32) -> u32
        requires first { 1 ≤ n }
        requires last { n < attempt_limit }
        ensures value { result ≡ draw_of self.old.seed self.old.station self.old.made n }
        ensures state { self.new ≡ drawn self.old }
    {
        let word = self.rng.next_word();
        word % (1 << n.min(BACKOFF_LIMIT))
    }
}
