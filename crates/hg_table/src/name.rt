use std::marker::Brand;

/// Names one table. A type of this trait stands for a table that was made: a caller picks it by
/// calling a function of its own, generic in it, with `Brand`.
pub trait TableName {
    ghost use Rattle.atomic_table.specs.Seated.{TableId};

    ghost table: { TableId };
}

impl TableName for Brand {
    ghost use Rattle.hg_table.specs.Seats.{no_table};

    ghost table = { no_table };
}
