//! What each step tells the seat that makes it, and how views are cut and joined.

ghost use Rattle.hg_run_table.specs.Reshaping.{both, spent, kept, given};
ghost use Rattle.hg_run_table.specs.Told.{looked, took, looked_deciding, opened};
ghost use Rattle.hg_run_table.specs.Told.{decided, asks, looked_answering, opened_answering};
ghost use Rattle.hg_run_table.specs.Told.{exchanged_deciding, exchanged_answering};
ghost use Rattle.hg_table.specs.Steps.{close_from, part_from};

use crate::decision::{Asks, CutAt, Decision, StepsBy};
use crate::part::SeatView;
use atomic_table::{Join, Play, Split};
use std::marker::PhantomData;

/// Steps that decide nothing.
pub(crate) struct Look;

impl Play<(), SeatView> for Look {
    ghost then = { looked };
}

pub(crate) struct Take<P: StepsBy> {
    by: PhantomData<P>,
}

impl<P: StepsBy> Play<(), SeatView> for Take<P> {
    ghost then = { took P.by };
}

/// Steps that decide calls.
pub(crate) struct Looking<D: Decision> {
    of: PhantomData<D>,
}

impl<D: Decision> Play<(), SeatView> for Looking<D> {
    ghost then = { looked_deciding D.roles D.change };
}

pub(crate) struct Opening<D: Decision, P: StepsBy> {
    of: PhantomData<D>,
    by: PhantomData<P>,
}

impl<D: Decision, P: StepsBy> Play<(), SeatView> for Opening<D, P> {
    ghost then = { opened D.roles D.change P.by };
}

pub(crate) struct Closing<D: Decision, P: StepsBy> {
    of: PhantomData<D>,
    by: PhantomData<P>,
}

impl<D: Decision, P: StepsBy> Play<(), SeatView> for Closing<D, P> {
    ghost then = { exchanged_deciding D.roles D.change close_from P.by };
}

pub(crate) struct Parting<D: Decision, P: StepsBy> {
    of: PhantomData<D>,
    by: PhantomData<P>,
}

impl<D: Decision, P: StepsBy> Play<(), SeatView> for Parting<D, P> {
    ghost then = { exchanged_deciding D.roles D.change part_from P.by };
}

/// Steps that answer what a worker is asked.
pub(crate) struct LookAnswering;

impl Play<(), SeatView> for LookAnswering {
    ghost then = { looked_answering };
}

pub(crate) struct OpenAnswering<P: StepsBy> {
    by: PhantomData<P>,
}

impl<P: StepsBy> Play<(), SeatView> for OpenAnswering<P> {
    ghost then = { opened_answering P.by };
}

pub(crate) struct CloseAnswering<P: StepsBy> {
    by: PhantomData<P>,
}

impl<P: StepsBy> Play<(), SeatView> for CloseAnswering<P> {
    ghost then = { exchanged_answering close_from P.by };
}

pub(crate) struct PartAnswering<P: StepsBy> {
    by: PhantomData<P>,
}

impl<P: StepsBy> Play<(), SeatView> for PartAnswering<P> {
    ghost then = { exchanged_answering part_from P.by };
}

/// At the spare word.
pub(crate) struct Deciding<D: Decision> {
    of: PhantomData<D>,
}

impl<D: Decision> Play<(), SeatView> for Deciding<D> {
    ghost then = { decided D.roles D.change };
}

/// The same where nothing is decided, and the parts of the seat are asked anew.
pub(crate) struct Asking<E: Asks> {
    of: PhantomData<E>,
}

impl<E: Asks> Play<(), SeatView> for Asking<E> {
    ghost then = { asks E.asked };
}

/// Two seats become one.
pub(crate) struct Both;

impl Join<SeatView> for Both {
    ghost both = { both };

    ghost spent = { spent };
}

/// One seat becomes two.
pub(crate) struct Cuts<C: CutAt> {
    of: PhantomData<C>,
}

impl<C: CutAt> Split<SeatView> for Cuts<C> {
    ghost left = { kept C.lives C.stay };

    ghost right = { given C.lives C.stay };
}
