ghost use Rattle.view_fold.specs.Laws.{FoldsAreOrderly};

/// States that the view folded from any messages has its rows in order, and none if the Service
/// does not exist.
pub fn folds_are_orderly()
    ensures { FoldsAreOrderly }
{}
