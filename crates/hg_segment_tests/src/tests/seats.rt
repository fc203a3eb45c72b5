//! A table and its seats, where memory may be refused.

ghost use Rattle.std.specs.Prelude.{◌≡◌};
ghost use Rattle.hg_table.specs.Named.{table_of};

use crate::tests::policies::policy;
use hg_table::{LifeTable, Seats, TableName};
use std::alloc::{AllocError, Global};
use std::marker::Brand;

/// How many seats of segments and of workers there are.
fn opened<N: TableName>(alloc: Global, table: LifeTable) -> Result<(usize, usize), AllocError>
    requires { table_of table ≡ N.table }
{
    let Seats { segments, workers } = table.open::<N>(alloc)?;
    Ok((segments.len(), workers.len()))
}

// The seats are there, or memory was refused: for a run in which requests are refused in turn.
#[test]
fn seats_refused_in_turn(rt: HostRuntime) {
    let alloc = rt.alloc();
    let Ok(policy) = policy(alloc) else {
        return;
    };
    let Ok(table) = LifeTable::new(alloc, &policy) else {
        return;
    };
    if let Ok(seats) = opened::<Brand>(alloc, table) {
        assert_eq!(&rt; seats, (2, 2));
    }
}
