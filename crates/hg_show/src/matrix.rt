//! Who may do what with whose blocks, as text.

ghost use Rattle.std.specs.Prelude.{◌≡◌, ℕ, ◌++◌, ◌∷◌, List, [], OnOk, codes};
ghost use Rattle.std.specs.List.{flat_map};
ghost use Rattle.hg_show.specs.Bands.{bands, bands_from};
ghost use Rattle.hg_show.specs.Matrix.{actor_line, band_text, bands_text, cell, column};
ghost use Rattle.hg_show.specs.Matrix.{column_head, letter_of, mark, mark_of, matrix_text};
ghost use Rattle.hg_show.specs.Parts.{tenants_in};

use crate::bands::is_full;
use crate::parts::name_of;
use crate::push::{push, push_before_blanks, push_behind_blanks};
use crate::standings::{Standing, standing_of};
use hg_place::Right;
use hg_policy::Policy;
use std::alloc::{AllocError, Global};

/// The letter of a right.
fn letter_of(right: Right) -> u8
    ensures { result ≡ letter_of right }
{
    match right {
        Right::Read => b'r',
        Right::Write => b'w',
        Right::List => b'l',
        Right::Free => b'f',
    }
}

/// The mark of a right of this letter.
fn mark_of(letter: u8, standing: Standing) -> u8
    ensures { result ≡ mark_of letter standing }
{
    match standing {
        Standing::Granted => letter,
        Standing::Apart => b'.',
        Standing::NotGranted => b'-',
        Standing::Denied => b'!',
    }
}

/// How an actor stands to a right on the blocks of an owner.
fn mark(policy: &Policy, owner: u8, actor: u8, right: Right) -> u8
    ensures { result ≡ mark policy.now owner actor right }
{
    mark_of(letter_of(right), standing_of(policy, owner, actor, right))
}

/// How an actor stands to the blocks of an owner.
#[tactic(auto, unfolding(crate::specs::Matrix::cell))]
fn cell(policy: &Policy, owner: u8, actor: u8) -> [u8; 4]
    ensures { result ≡ cell policy.now owner actor }
{
    [
        mark(policy, owner, actor, Right::Read),
        mark(policy, owner, actor, Right::Write),
        mark(policy, owner, actor, Right::List),
        mark(policy, owner, actor, Right::Free),
    ]
}

/// Appends the head of an owner's column.
#[tactic(auto, unfolding(crate::specs::Matrix::column_head))]
fn push_column_head(out: &mut Vec<u8>, policy: &Policy, owner: u8) -> Result<(), AllocError>
    ensures { OnOk result (out.new.items ≡ out.old.items ++ column_head policy.now owner) }
{
    push(out, " ")?;
    push_behind_blanks(out, 4, name_of(policy, owner).as_bytes())
}

/// Appends what stands in an owner's column in the row of an actor.
#[tactic(auto, unfolding(crate::specs::Matrix::column))]
fn push_column(out: &mut Vec<u8>, policy: &Policy, actor: u8, owner: u8) -> Result<(), AllocError>
    ensures { OnOk result (out.new.items ≡ out.old.items ++ column policy.now actor owner) }
{
    push(out, " ")?;
    let cell = cell(policy, owner, actor);
    push_behind_blanks(out, name_of(policy, owner).len(), &cell)
}

/// Appends the column of each owner of a band in the row of an actor.
fn push_columns(
    out: &mut Vec<u8>,
    policy: &Policy,
    band: &[u8],
    actor: u8,
) -> Result<(), AllocError>
    ensures { OnOk result (out.new.items ≡ out.old.items
        ++ flat_map (column policy.now actor) band.now) }
{
    for owner in band {
        push_column(out, policy, actor, *owner)?;
    }
    Ok(())
}

/// Appends the row of an actor in a band.
#[tactic(auto, unfolding(crate::specs::Matrix::actor_line))]
fn push_actor(out: &mut Vec<u8>, policy: &Policy, band: &[u8], actor: u8) -> Result<(), AllocError>
    ensures { OnOk result (out.new.items ≡ out.old.items ++ actor_line policy.now band.now actor) }
{
    push(out, "  ")?;
    push_before_blanks(out, 16, name_of(policy, actor).as_bytes())?;
    push_columns(out, policy, band, actor)?;
    push(out, "\n")
}

/// Appends the heads of the columns of a band.
fn push_column_heads(out: &mut Vec<u8>, policy: &Policy, band: &[u8]) -> Result<(), AllocError>
    ensures { OnOk result (out.new.items ≡ out.old.items
        ++ flat_map (column_head policy.now) band.now) }
{
    for owner in band {
        push_column_head(out, policy, *owner)?;
    }
    Ok(())
}

/// Appends the rows of a band.
fn push_actor_lines(out: &mut Vec<u8>, policy: &Policy, band: &[u8]) -> Result<(), AllocError>
    ensures { OnOk result (out.new.items ≡ out.old.items
        ++ flat_map (actor_line policy.now band.now) (tenants_in policy.now)) }
{
    for actor in 0..policy.tenants() {
        push_actor(out, policy, band, actor)?;
    }
    Ok(())
}

/// Appends a band.
#[tactic(auto, unfolding(crate::specs::Matrix::band_text))]
fn push_band(out: &mut Vec<u8>, policy: &Policy, band: &[u8]) -> Result<(), AllocError>
    ensures { OnOk result (out.new.items ≡ out.old.items ++ band_text policy.now band.now) }
{
    push(out, "                  ")?;
    push_column_heads(out, policy, band)?;
    push(out, "\n")?;
    push_actor_lines(out, policy, band)
}

/// Appends a band that is full with an empty line behind it, and begins the next with an owner.
fn begin_band(
    out: &mut Vec<u8>,
    policy: &Policy,
    band: &mut Vec<u8>,
    owner: u8,
) -> Result<(), AllocError>
    ensures text { OnOk result (out.new.items
        ≡ out.old.items ++ band_text policy.now band.old.items ++ codes "\n") }
    ensures band { OnOk result (band.new.items ≡ owner ∷ []) }
{
    push_band(out, policy, band.as_slice())?;
    push(out, "\n")?;
    band.clear();
    band.push(owner)?;
    Ok(())
}

/// Puts an owner into the band, which is appended first where it is full, and then begins anew:
/// with the bands of the owners to come the text is the same.
fn add_owner(
    out: &mut Vec<u8>,
    policy: &Policy,
    band: &mut Vec<u8>,
    owner: u8,
) -> Result<(), AllocError>
    ensures { OnOk result ((owners : List ℕ) → out.new.items
        ++ bands_text policy.now (bands_from policy.now band.new.items owners)
        ≡ out.old.items
        ++ bands_text policy.now (bands_from policy.now band.old.items (owner ∷ owners))) }
{
    if is_full(policy, band.as_slice(), owner) {
        begin_band(out, policy, band, owner)?;
        Ok(())
    } else {
        band.push(owner)?;
        Ok(())
    }
}

/// Appends the bands of all owners.
fn push_bands(alloc: Global, out: &mut Vec<u8>, policy: &Policy) -> Result<(), AllocError>
    ensures { OnOk result (out.new.items
        ≡ out.old.items ++ bands_text policy.now (bands policy.now)) }
{
    let mut band = Vec::new(alloc);
    for owner in 0..policy.tenants() {
        add_owner(out, policy, &mut band, owner)?;
    }
    push_band(out, policy, band.as_slice())
}

/// Appends who may do what with whose blocks.
#[tactic(auto, unfolding(crate::specs::Matrix::matrix_text))]
pub(crate) fn push_matrix(
    alloc: Global,
    out: &mut Vec<u8>,
    policy: &Policy,
) -> Result<(), AllocError>
    ensures { OnOk result (out.new.items ≡ out.old.items ++ matrix_text policy.now) }
{
    push(
        out,
        "\nrights of each (row) on the blocks of each (column)\n",
    )?;
    push(
        out,
        "r read, w write, l list, f free, - not granted, ! denied, . no arena in common\n",
    )?;
    push_bands(alloc, out, policy)
}
