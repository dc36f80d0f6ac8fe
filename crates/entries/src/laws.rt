// Which entries are taken in form, whatever the edition.
ghost use Rattle.entries.specs.Taken.{ExactlyFitting, RefusedByField};
ghost use Rattle.editions.specs.Text.{Text};

pub fn hold()
    ensures taken { (t : Text) → ExactlyFitting t }
    ensures refused { (t : Text) → RefusedByField t }
{}
