// The theorem of the worked cases.
ghost use Rattle.cases.specs.Cases.{WorkedCasesHold};

// Every worked case comes out as it is written down.
pub fn worked_cases_hold()
    ensures { WorkedCasesHold }
{}
