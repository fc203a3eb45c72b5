//! The order in which cores are asked.

ghost use Rattle.std.specs.Prelude.{◌≡◌, ◌<◌, ◌≤◌};
ghost use Rattle.hg_bank.specs.declared.bank.TheConstants.{MAX_CORES};
ghost use Rattle.hg_bank_service.specs.Order.{turn};

/// The core before which so many are asked, from the current one to the last, then from the first.
pub(crate) fn core_at(current: u16, count: u16, before: u16) -> u16
    requires few { count ≤ MAX_CORES }
    requires current { current < count }
    requires before { before < count }
    ensures there { result < count }
    ensures turn { turn current count result ≡ before }
{
    if before < count - current {
        current + before
    } else {
        before - (count - current)
    }
}
