//! Laws of the document and of its faults. Each function does nothing: what it promises is the law.

ghost use Rattle.hg_policy_text.specs.DocumentLaws.{NamesAreDistinct, TablesAreWhole};
ghost use Rattle.hg_policy_text.specs.DocumentLaws.{DocumentsAreSound};
ghost use Rattle.hg_policy_laws.specs.LineLaws.{FaultsAreOneLine};
ghost use Rattle.hg_policy_laws.specs.RowLaws.{PoliciesHaveNoFaultyRow, FaultyRowsAreRows};
ghost use Rattle.hg_policy_laws.specs.RowLaws.{FaultyRowsAreTold, ReadingStopsAtFaultyRows};
ghost use Rattle.hg_policy_text.specs.SaidLaws.{LinesAreSaid, ArenasAreSaid, NothingIsPassedOver};
ghost use Rattle.hg_policy_text.specs.VersionLaws.{VersionsAgree, VersionTwoIsVersionOne};
ghost use Rattle.hg_policy_text.specs.VersionLaws.{VersionsAreTwo};

/// No two tenants of a policy that was read have one name, nor two arenas, and each name has the
/// form of a name.
pub fn names_are_distinct()
    ensures { NamesAreDistinct }
{}

/// In a policy that was read it stands of each arena whether it admits each tenant, of each owner
/// which rights each tenant has on its blocks, and of which it is denied what, and nothing else.
pub fn tables_are_whole()
    ensures { TablesAreWhole }
{}

/// A policy that was read is sound.
pub fn documents_are_sound()
    ensures { DocumentsAreSound }
{}

/// A tenant is granted a right on another's blocks exactly where one of the lines that grant names
/// the owner, the actor and the right, and is forbidden it exactly where one of those that deny
/// does: each of the two by its own name or by that of a group of which it is a member.
pub fn lines_are_said()
    ensures { LinesAreSaid }
{}

/// An arena admits exactly the tenants for whom a name in its list stands, their own or that of a
/// group of which they are members, or each tenant where it has no list.
pub fn arenas_are_said()
    ensures { ArenasAreSaid }
{}

/// In a document that means a policy the lines and the groups have only their own keys, each name
/// in them and in the lists of arenas is a tenant's, or but for members a group's, and each right is
/// one of the four words; there are at most 64 groups.
pub fn nothing_is_passed_over()
    ensures { NothingIsPassedOver }
{}

/// The line of a fault has no control character, none that breaks a line and none that turns the
/// direction of writing, whatever key or name it tells.
pub fn faults_are_one_line()
    ensures { FaultsAreOneLine }
{}

/// A document of version 1 whose top keys are that version's means the same policy, or has the same
/// fault, with its version changed to 2.
pub fn versions_agree()
    ensures { VersionsAgree }
{}

/// What version 1 accepts means the same policy in version 2.
pub fn version_two_is_version_one()
    ensures { VersionTwoIsVersionOne }
{}

/// A document of version 1 or 2 is read, with the keys of that version, and a document of any other
/// number has the fault `Version`.
pub fn versions_are_two()
    ensures { VersionsAreTwo }
{}

/// No row of a document that means a policy is faulty.
pub fn policies_have_no_faulty_row()
    ensures { PoliciesHaveNoFaultyRow }
{}

/// A document with a faulty row has a fault, and the row's number is below that of its table's
/// rows.
pub fn faulty_rows_are_rows()
    ensures { FaultyRowsAreRows }
{}

/// A document whose first fault is none of those that are told before any entry is read has a
/// faulty row.
pub fn faulty_rows_are_told()
    ensures { FaultyRowsAreTold }
{}

/// The tables of a document, cut to the rows before its faulty row, are read, and with that row
/// they are not.
pub fn reading_stops_at_faulty_rows()
    ensures { ReadingStopsAtFaultyRows }
{}
