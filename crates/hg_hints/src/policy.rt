//! The line behind that of a policy's fault.

ghost use Rattle.std.specs.Prelude.{◌≡◌, ◌<◌, ◌++◌, IfOk, IfSome, OnOk, is_some, true};
ghost use Rattle.toml.specs.Errors.{IsMemory, IsWithin};
ghost use Rattle.toml.specs.View.{table_view};
ghost use Rattle.hg_policy_text.specs.Faults.{fault_of};
ghost use Rattle.hg_hints.specs.Hints.{hint_line, place_text, row_text, IsHint, IsRefused};
ghost use Rattle.hg_hints.specs.Reasons.{reason};

use crate::push::push;
use crate::reason::push_reason;
use crate::spot::Spot;
use hg_policy_text::{PolicyFault, Row, faulty_row, read_policy};
use std::alloc::{AllocError, Global};
use toml::Table;
use toml::de::Error;

/// Where bytes are no TOML, and why. An error of memory says nothing of them.
fn refused(alloc: Global, bytes: &[u8], error: &Error) -> Result<Vec<u8>, AllocError>
    requires { IsWithin bytes.now error.now }
    ensures refused { IfOk result (λ hint. IsRefused bytes.now hint.items) }
    ensures memory { IfOk result (λ _. IsMemory error.now → ⊥) }
{
    let span = error.span().ok_or(AllocError)?;
    let spot = Spot::behind_all(&bytes[..span.start]);
    let mut out = Vec::new(alloc);
    push(&mut out, "  ")?;
    spot.push_refused(&mut out, error.message())?;
    push(&mut out, "\n")?;
    Ok(out)
}

/// Appends in which row of a table.
#[tactic(auto, unfolding(crate::specs::Hints::row_text))]
fn push_row(out: &mut Vec<u8>, alloc: Global, row: Row) -> Result<(), AllocError>
    requires { row.number < row.rows }
    ensures { OnOk result (out.new.items ≡ out.old.items ++ row_text row) }
{
    let Row {
        table,
        number,
        rows,
    } = row;
    let text = format!(in alloc; "in {table} {} of {rows}: ", number + 1)?;
    push(out, text.as_str())
}

/// The same, where a fault is of a row.
fn push_place(out: &mut Vec<u8>, alloc: Global, row: Option<Row>) -> Result<(), AllocError>
    requires { IfSome row (λ row. row.number < row.rows) }
    ensures { OnOk result (out.new.items ≡ out.old.items ++ place_text row) }
{
    match row {
        Some(row) => push_row(out, alloc, row),
        None => Ok(()),
    }
}

/// What is told of a fault of a document, in which row it is. Want of memory is none.
fn told(
    alloc: Global,
    document: &Table,
    row: Option<Row>,
    fault: &PolicyFault,
) -> Result<Vec<u8>, AllocError>
    requires { IfSome row (λ row. row.number < row.rows) }
    ensures told { IfOk result (λ hint. IfSome (fault_of fault.now)
        (λ f. hint.items
        ≡ hint_line (place_text row ++ reason (table_view document.now) f))) }
    ensures memory { IfOk result (λ _. is_some (fault_of fault.now) ≡ true) }
{
    let mut out = Vec::new(alloc);
    push(&mut out, "  ")?;
    push_place(&mut out, alloc, row)?;
    push_reason(&mut out, alloc, document, fault)?;
    push(&mut out, "\n")?;
    Ok(out)
}

/// What a user is told behind the line of a policy's fault, as a line of its own behind two blanks:
/// where TOML refuses it, by line and column, and why; else in which row of which table, and what is wanted there, what is like the key
/// or the name that isn't known, or how many there may be. No text where there is no fault. Its one
/// error is want of memory.
pub fn policy_hint(alloc: Global, bytes: &[u8]) -> Result<Vec<u8>, AllocError>
    ensures { IfOk result (λ hint. IsHint bytes.now hint.items) }
{
    match toml::table_from_slice(alloc, bytes) {
        Ok(document) => match read_policy(alloc, bytes) {
            Ok(_) => Ok(Vec::new(alloc)),
            Err(fault) => {
                let row = faulty_row(alloc, bytes)?;
                told(alloc, &document, row, &fault)
            }
        },
        Err(error) => refused(alloc, bytes, &error),
    }
}
