//! Laws of bank workers. Each function does nothing: what it promises is the law.

ghost use Rattle.hg_bank_service.specs.Laws.{FirstWithPlaceServes, NoRoomWhereNoneHas};
ghost use Rattle.hg_bank_service.specs.Laws.{TurnsAreRounds};

/// An allocation is served by the first core in the order in which a bank asks, whose heap has a
/// place for it.
pub fn first_with_place_serves()
    ensures { FirstWithPlaceServes }
{}

/// No room is told only where no core's heap has a place.
pub fn no_room_where_none_has()
    ensures { NoRoomWhereNoneHas }
{}

/// A core's turn is its place in the order in which a bank asks.
pub fn turns_are_rounds()
    ensures { TurnsAreRounds }
{}
