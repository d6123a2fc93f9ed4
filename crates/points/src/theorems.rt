// Theorems on tables and plans.
ghost use Rattle.points.specs.Tables.{NextIsSingle};
ghost use Rattle.points.specs.Plans.{ContentIsNear, ContentIsBest};

// The question for the next allowed seat has one answer.
pub fn next_is_single()
    ensures { NextIsSingle }
{}

// A plan whose runs are content is best, within the increment.
pub fn content_is_best()
    ensures near { ContentIsNear }
    ensures best { ContentIsBest }
{}
