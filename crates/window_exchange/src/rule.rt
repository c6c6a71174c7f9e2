//! The rule of a box, and what its steps change: a box is made with a pass, which has seen nothing; a new pass of it,
//! which has seen nothing either, may be made; a push puts one parcel at the back, and a pop takes one from the front,
//! or each finds the box full or empty and changes nothing.
use crate::{Lists, Planned};
use crossbeam_queue::protocol::{Outcome, Protocol, Split};
use net_parts::Parcel;
use std::marker::PhantomData;

/// The rule of a box for the plan of `P`.
pub struct ParcelRule<P> {
    plan: PhantomData<P>,
}

impl<P: Planned> Protocol<Parcel, Lists> for ParcelRule<P> {
    ghost use Rattle.std.specs.Prelude.{[]};
    ghost use Rattle.window_exchange.specs.Balance.{IsBalanced, name_lists};

    ghost holds = { IsBalanced P.plan };

    ghost first = { name_lists [] [] };
}

/// The pass stays as it is, and the new one has seen nothing.
pub struct Again;

impl Split<Lists> for Again {
    ghost use Rattle.std.specs.Prelude.{[]};
    ghost use Rattle.window_exchange.specs.Balance.{name_lists};

    ghost left = { λ v. v };

    ghost right = { λ v. name_lists [] [] };
}

/// The parcel's name stands at the end of the put list.
pub struct Puts;

impl Outcome<Parcel, Lists> for Puts {
    ghost use Rattle.std.specs.Prelude.{◌≡◌, [], ◌∷◌, ◌++◌};
    ghost use Rattle.window_exchange.specs.Balance.{name_lists};
    ghost use Rattle.window_exchange.specs.MailNames.{parcel_name};

    ghost then = { λ v x w. w ≡ name_lists (v.put ++ parcel_name x ∷ []) v.taken };
}

/// The parcel is honest, and its name stands at the end of the taken list.
pub struct Takes<P> {
    plan: PhantomData<P>,
}

impl<P: Planned> Outcome<Parcel, Lists> for Takes<P> {
    ghost use Rattle.std.specs.Prelude.{◌≡◌, [], ◌∷◌, ◌++◌};
    ghost use Rattle.window_exchange.specs.Balance.{name_lists};
    ghost use Rattle.window_exchange.specs.MailNames.{parcel_name, IsHonest};

    ghost then = { λ v x w. (w ≡ name_lists v.put (v.taken ++ parcel_name x ∷ [])) × IsHonest P.plan x };
}
