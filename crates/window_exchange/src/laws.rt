//! Laws of boxes: a call without a body for each.
ghost use Rattle.std.specs.Prelude.{List};
ghost use Rattle.net_parts.specs.declared.parcel.Parcel.{Parcel};
ghost use Rattle.window_exchange.specs.Balance.{IsFair};
ghost use Rattle.window_exchange.specs.MailNames.{NamesTell, HonestParcelsAreTrue};
ghost use Rattle.window_exchange.specs.declared.mail.Lists.{Lists};

use crate::rule::ParcelRule;
use crate::{Lists, Planned};
use crossbeam_queue::protocol::Protocol;
use net_parts::Parcel;

/// Wherever a box stands by its rule, no name was taken more often than it was put, and what is taken next was put and
/// is honest.
pub fn what_is_taken_was_put<P: Planned>()
    ensures { (items : List Parcel) (views : List Lists) → ⟦<ParcelRule<P> as Protocol<Parcel, Lists>>⟧.holds items views → IsFair P.plan items views }
{}

/// Parcels of one name are of one edge, window and way, and both are spoiled or both not.
pub fn names_tell()
    ensures { NamesTell }
{}

/// An honest parcel holds the plan's symbols or is spoiled.
pub fn honest_parcels_are_true<P: Planned>()
    ensures { HonestParcelsAreTrue P.plan }
{}
