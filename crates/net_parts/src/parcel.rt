//! What goes over an edge.
ghost use Rattle.std.specs.Prelude.{◌≡◌, ◌<◌, ◌≤◌, ◌+◌, ◌++◌, [], length, take, drop, replicate, IfOk, slice_set};
ghost use Rattle.manchester_line.specs.declared.Sym.TheVariants.{Idle};

use lists::{List, OutOfMemory};
use manchester_line::Sym;
use std::alloc::Global;
use std::marker::Model;

/// The symbols of half bits one after another. No call makes them more, so none but the first takes memory.
#[derive(Drop)]
pub struct Symbols {
    items: Vec<Sym>,
}

impl Model for Symbols {
    ghost use Rattle.std.specs.Prelude.{List};
    ghost use Rattle.manchester_line.specs.declared.Sym.{Sym};

    ghost Value = { List Sym };

    ghost view = { λ s. s.items.items };
}

impl Symbols {
    /// No symbols, which takes no memory.
    pub fn none(alloc: Global) -> Symbols
        ensures { result ≡ [] }
    {
        Symbols {
            items: Vec::new(alloc),
        }
    }

    /// So many times Idle.
    pub fn idle(alloc: Global, count: usize) -> Result<Symbols, OutOfMemory>
        ensures { IfOk result (λ symbols. symbols ≡ replicate count Idle) }
    {
        Ok(Symbols {
            items: vec![in alloc; Sym::Idle; count]?,
        })
    }

    /// How many they are.
    pub fn len(&self) -> usize
        ensures { result ≡ length self.now }
    {
        self.items.len()
    }

    /// All of them, in order of time.
    pub fn as_slice(&self) -> &[Sym]
        ensures { result.now ≡ self.now }
    {
        self.items.as_slice()
    }

    /// Sets the symbol at place `i`, from 0.
    pub fn set(&mut self, i: usize, s: Sym)
        requires { i < length self.old }
        ensures { self.new ≡ slice_set self.old i s }
    {
        self.items[i] = s;
    }

    /// Puts a piece over the symbols from place `from` on, from 0.
    pub fn put(&mut self, from: usize, piece: &[Sym])
        requires { from + length piece.now ≤ length self.old }
        ensures { self.new ≡ take from self.old ++ (piece.now ++ drop (from + length piece.now) self.old) }
    {
        self.items[from..from + piece.len()].copy_from_slice(piece);
    }

    /// Keeps the first symbols, so many at most.
    pub fn cut(&mut self, count: usize)
        ensures { self.new ≡ take count self.old }
    {
        self.items.truncate(count);
    }
}

/// The one parcel of an edge: the symbols for a window; that window, which is its stamp; its way, to its repeater or
/// else to its segment; and whether it is spoiled, which follows want of memory. The widest fields come first, so that
/// it is short.
#[derive(Drop)]
pub struct Parcel {
    pub symbols: Symbols,
    pub window: u64,
    pub edge: u32,
    pub to_repeater: bool,
    pub spoiled: bool,
}

/// Parcels, such as those of a part in the order of its edges.
pub type ParcelList = List<Parcel>;
