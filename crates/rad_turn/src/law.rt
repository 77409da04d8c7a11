//! The rule of a desk's table, and what each step on it tells.
use crate::stands::Stands;
use crate::view::{Known, View};
use atomic_table::{Join, Play, Split, TableRule};
use std::marker::{Brand, PhantomData};
use std::snapshot::Snapshot;

/// The rule. It is told the value that a desk was made with.
pub struct Law<S> {
    of: PhantomData<S>,
}

impl<S: Stands> TableRule<S, Known<S>, Snapshot<S>> for Law<S> {
    ghost use Rattle.std.specs.Prelude.{Some};
    ghost use Rattle.rad_turn.specs.Views.{beginner};
    ghost use Rattle.rad_turn.specs.Kept.{Kept};

    ghost holds = { λ _. Kept S.stands S.origin S.by };

    ghost first = { λ key. Some (beginner (S.origin key.value) (S.beginning key.value)) };
}

/// A load of the word.
pub struct Look<S> {
    of: PhantomData<S>,
}

impl<S: Stands> Play<S, Known<S>> for Look<S> {
    ghost use Rattle.rad_turn.specs.Told.{looked};

    ghost then = { looked S.stands S.origin S.by };
}

/// The exchange that takes the desk.
pub struct Take<S> {
    of: PhantomData<S>,
}

impl<S: Stands> Play<S, Known<S>> for Take<S> {
    ghost use Rattle.rad_turn.specs.Told.{took};

    ghost then = { took S.stands S.origin S.by };
}

/// The entries that a step makes. Each turn picks them.
pub trait Makes<E> {
    ghost use Rattle.std.specs.Prelude.{List};

    ghost entries: { List E };
}

impl<E> Makes<E> for Brand {
    ghost use Rattle.std.specs.Prelude.{[]};

    ghost entries = { [] };
}

/// The addition that gives the desk back.
pub struct Give<J> {
    of: PhantomData<J>,
}

impl<S, E, O, B, J: Makes<E>> Play<S, Option<View<E, O, B>>> for Give<J> {
    ghost use Rattle.rad_turn.specs.Told.{gave};

    ghost then = { gave J.entries };
}

/// How a new seat comes.
pub struct Cut;

impl<E, O, B> Split<Option<View<E, O, B>>> for Cut {
    ghost use Rattle.rad_turn.specs.Told.{cut_left, cut_right};

    ghost left = { cut_left };

    ghost right = { cut_right };
}

/// How the first seat is told what another one has seen, which is then gone.
pub struct Glue;

impl<E, O, B> Join<Option<View<E, O, B>>> for Glue {
    ghost use Rattle.std.specs.Prelude.{None};
    ghost use Rattle.rad_turn.specs.Told.{glued};

    ghost both = { glued };

    ghost spent = { None };
}

/// The load at which the first seat takes in what it was told.
pub struct Settle<S> {
    of: PhantomData<S>,
}

impl<S: Stands> Play<S, Known<S>> for Settle<S> {
    ghost use Rattle.rad_turn.specs.Told.{settled};

    ghost then = { settled S.by };
}
