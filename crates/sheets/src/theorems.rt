// Theorems on sheets.
ghost use Rattle.sheets.specs.Merging.{MergingKeepsTheTable};

// A sheet and the same sheet with touching spans merged mean the same table.
pub fn merging_keeps_the_table()
    ensures { MergingKeepsTheTable }
{}
