//! What each kind of step tells the owner that makes it. A split tells what the owner keeps and what the new owner has.
ghost use Rattle.std.specs.Prelude.{ℕ};
ghost use Rattle.plane_pool.specs.Told.{puts, gets, seals, drops, opens, claims, lighter, lent, idle, drafted, cut_left, cut_right, mended};
ghost use Rattle.plane_pool.specs.declared.view.View.TheVariants.{Spent};

use crate::view::View;
use atomic_table::{Join, Play, Split};
use std::marker::{Brand, PhantomData};

/// A store to a data word.
pub struct Put;

impl Play<(), View> for Put {
    ghost then = { puts };
}

/// A load of a data word.
pub struct Get;

impl Play<(), View> for Get {
    ghost then = { gets };
}

/// A draft becomes a reference.
pub struct Seal;

impl Play<(), View> for Seal {
    ghost then = { seals };
}

/// A weight is taken from word 0.
pub struct Release;

impl Play<(), View> for Release {
    ghost then = { drops };
}

/// A reference that is alone becomes a draft.
pub struct Sole;

impl Play<(), View> for Sole {
    ghost then = { opens };
}

/// The keeper claims a slot that is free.
pub struct Claim;

impl Play<(), View> for Claim {
    ghost then = { claims };
}

/// The keeper gives the slot that it claimed, as a draft.
pub struct Give;

impl Split<View> for Give {
    ghost left = { idle };

    ghost right = { drafted };
}

/// The number of a split: the weight that is lent, or the place of a cut. Each call picks it.
pub trait Lot {
    ghost give: { ℕ };
}

impl Lot for Brand {
    ghost give = { 0 };
}

/// A part of a weight is lent to a new reference.
pub struct Share<G> {
    lot: PhantomData<G>,
}

impl<G: Lot> Split<View> for Share<G> {
    ghost left = { lighter G.give };

    ghost right = { lent G.give };
}

/// A range is cut in two.
pub struct Cut<G> {
    lot: PhantomData<G>,
}

impl<G: Lot> Split<View> for Cut<G> {
    ghost left = { cut_left G.give };

    ghost right = { cut_right G.give };
}

/// Two ranges are joined.
pub struct Mend;

impl Join<View> for Mend {
    ghost both = { mended };

    ghost spent = { Spent };
}
