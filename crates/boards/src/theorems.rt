// Theorems on boards.
ghost use Rattle.boards.specs.Layers.{HeldTellingsRise};

// The tellings that a sound delay layer holds for a seat rise from oldest to newest.
pub fn held_tellings_rise()
    ensures { HeldTellingsRise }
{}
