ghost use Rattle.proof_file.specs.Laws.{AcceptedBounds, FaultsStay, LinesAreRecords, PiecesAddUp, RecordsGrow, SharedTextsAreUnique, SharedTreesAreInRange, TextsAreRead, TextsAreUnique, TreesAreInRange};

/// A proof file that is accepted bounds every feasible plan.
pub fn texts_of_trees()
    ensures { AcceptedBounds }
{
    leaf_bounds::bound_of_tree();
    leaf_bounds::bound_of_shared_tree();
}

/// Two trees with equal proof files are equal.
pub fn texts_are_unique()
    ensures plain { TextsAreUnique }
    ensures shared { SharedTextsAreUnique }
{}

/// What a reader gives is what stands in the file: without a fault, the records whose text the bytes are.
pub fn records_are_lines()
    ensures line { LinesAreRecords }
    ensures text { TextsAreRead }
{}

/// How bytes are cut makes no difference to their records and their fault.
pub fn cuts_make_no_difference()
    ensures records { RecordsGrow }
    ensures fault { FaultsStay }
    ensures pieces { PiecesAddUp }
{}

/// What a tree has to have beside the ranges that its leaves keep, to be written.
pub fn trees_can_be_written()
    ensures plain { TreesAreInRange }
    ensures shared { SharedTreesAreInRange }
{}
