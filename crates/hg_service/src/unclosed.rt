use crate::caller_locked::CallerLocked;
use crate::service::Service;
use hg_audit::Parts;
use hg_close::CloseFault;
use hg_place::Place;
use hg_worker::ServiceName;

/// A service that didn't close.
#[derive(Drop)]
pub enum Unclosed<N: ServiceName> {
    /// It goes on, as it was, for this reason.
    Running(Service<N>, CloseFault),
    /// The lowest place that isn't accounted for, and the parts of a core that was to be made of the
    /// service, which is given up.
    Lost(Place, Parts),
}

/// The parts of a service that didn't close.
#[derive(Drop)]
pub enum UnclosedParts<N: ServiceName> {
    /// They are as they were, for this reason.
    Running(CallerLocked<N>, CloseFault),
    /// The lowest place that isn't accounted for, and the parts of a core that were to be made one.
    Lost(Place, Parts),
}
