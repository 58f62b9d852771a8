//! Laws of tapes. Each function does nothing; its contract is the law.

ghost use Rattle.tapes.specs.Hinge.{HingeTape};
ghost use Rattle.tapes.specs.Rows.{RowsAreNodes};

/// However damaged a tape is, each row that is read before the damage is a node's row.
pub fn rows_are_nodes()
    ensures { RowsAreNodes }
{}

/// The worked example: what the hinge block reads as, and how it is refused where its root names another CLOSE offset.
pub fn hinge_tape()
    ensures { HingeTape }
{}
