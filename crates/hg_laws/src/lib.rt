//! Laws of whole runs of the machine. Each function does nothing: what it promises is the law.
#![tactic(auto)]

ghost use Rattle.hg_laws.specs.Integrity.{BlocksAreKept, OthersChangeNothing};
ghost use Rattle.hg_laws.specs.Permitted.{ReadsArePermitted, WritesArePermitted};
ghost use Rattle.hg_laws.specs.Permitted.{FreesArePermitted, LooksArePermitted};
ghost use Rattle.hg_laws.specs.Permitted.{PermittedIsAllowed};
ghost use Rattle.hg_laws.specs.Confinement.{ReadsAreConfined};
ghost use Rattle.hg_laws.specs.Lives.{LivesAreCounted, LivesAreLimited, ForgedIsDenied};
ghost use Rattle.hg_laws.specs.Lives.{FreedIsDenied};
ghost use Rattle.hg_laws.specs.Limits.{ChargesStayLow, AllocationsAreCharged, LimitsAreKept};
ghost use Rattle.hg_laws.specs.Reading.{ReadingChangesNothing, ReadingMayBeDropped};
ghost use Rattle.hg_laws.specs.Arenas.{ArenasAreIsolated, UnadmittedGetNothing};
ghost use Rattle.hg_laws.specs.Arenas.{BlocksLieInTheArena};
ghost use Rattle.hg_laws.specs.Owners.{OwnersAreTenants};
ghost use Rattle.hg_laws.specs.Rows.{LooksTellTheirLine};
ghost use Rattle.hg_laws.specs.Workers.{WorkersKeepApart, NewPagesComeLast};
ghost use Rattle.hg_laws.specs.Counts.{TakenIsCounted, PagesAreCounted};
ghost use Rattle.hg_laws.specs.Forbidden.{ForbiddenIsNeverServed};

/// In any run a live block stays as it was, until an actor whom the policy lets do so frees it or
/// writes into it.
pub fn blocks_are_kept()
    ensures { BlocksAreKept }
{}

/// A tenant that lets nobody else write or free its blocks loses nothing by what others do.
pub fn others_change_nothing()
    ensures { OthersChangeNothing }
{}

/// A word is read only of a live block that the policy lets the actor read.
pub fn reads_are_permitted()
    ensures { ReadsArePermitted }
{}

/// A word is written only into a live block that the policy lets the actor write.
pub fn writes_are_permitted()
    ensures { WritesArePermitted }
{}

/// A block is freed only where it lives and the policy lets the actor free it.
pub fn frees_are_permitted()
    ensures { FreesArePermitted }
{}

/// A row is shown only of a live block that the policy lets the actor list.
pub fn looks_are_permitted()
    ensures { LooksArePermitted }
{}

/// What the policy lets the actor do with a live block by its handle is denied by no rule.
pub fn permitted_is_allowed()
    ensures { PermittedIsAllowed }
{}

/// A read gives zero, or the value that a write put there last in that same life.
pub fn reads_are_confined()
    ensures { ReadsAreConfined }
{}

/// The generation of a place rises by one each time that it is given out, and by nothing else.
pub fn lives_are_counted()
    ensures { LivesAreCounted }
{}

/// Since the opening a place is given out at most as often as the policy's greatest generation
/// says.
pub fn lives_are_limited()
    ensures { LivesAreLimited }
{}

/// A handle that was never answered is denied to all, whatever is asked with it.
pub fn forged_is_denied()
    ensures { ForgedIsDenied }
{}

/// A handle that was once freed is denied to all, whatever is asked with it.
pub fn freed_is_denied()
    ensures { FreedIsDenied }
{}

/// No step but a refill of the heap raises a charge there above the limit.
pub fn charges_stay_low()
    ensures { ChargesStayLow }
{}

/// An allocation raises its actor's charge by the bytes of its class, and to within the limit.
pub fn allocations_are_charged()
    ensures { AllocationsAreCharged }
{}

/// A tenant within its limit in a heap stays so in every run that doesn't refill that heap.
pub fn limits_are_kept()
    ensures { LimitsAreKept }
{}

/// Reads, looks and refusals leave the state as it was.
pub fn reading_changes_nothing()
    ensures { ReadingChangesNothing }
{}

/// A read, a look or a refusal may be dropped from a run without changing any other answer.
pub fn reading_may_be_dropped()
    ensures { ReadingMayBeDropped }
{}

/// In a run each event of an actor in an arena that doesn't admit it is denied.
pub fn arenas_are_isolated()
    ensures { ArenasAreIsolated }
{}

/// An actor that no arena admits is denied whatever it asks for: no block, no word and no row.
pub fn unadmitted_get_nothing()
    ensures { UnadmittedGetNothing }
{}

/// A block that is answered lies in the arena that was asked for.
pub fn blocks_lie_in_the_arena()
    ensures { BlocksLieInTheArena }
{}

/// Each block is owned by a tenant that the arena of its segment admits.
pub fn owners_are_tenants()
    ensures { OwnersAreTenants }
{}

/// The row of a served look is the line that a listing has of the place.
pub fn looks_tell_their_line()
    ensures { LooksTellTheirLine }
{}

/// A step of one worker leaves the others' hands, what they hold, and of segments that it doesn't
/// hold all but a block that it parts.
pub fn workers_keep_apart()
    ensures { WorkersKeepApart }
{}

/// A page without the class is given one only where no page that has it has room.
pub fn new_pages_come_last()
    ensures { NewPagesComeLast }
{}

/// A take tells how many places came home.
pub fn taken_is_counted()
    ensures { TakenIsCounted }
{}

/// A collect tells how many pages lost their class.
pub fn pages_are_counted()
    ensures { PagesAreCounted }
{}

/// A right that is forbidden is denied after any run, and nothing changes.
pub fn forbidden_is_never_served()
    ensures { ForbiddenIsNeverServed }
{}
