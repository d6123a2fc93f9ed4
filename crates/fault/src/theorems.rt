// Theorems on checks in a fixed order.
ghost use Rattle.fault.specs.Checks.{OneAnswer};

// What is refused does not pass, and is refused with one fault.
pub fn checks_answer_once()
    ensures { OneAnswer }
{}
