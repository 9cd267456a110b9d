ghost use Rattle.wording.specs.Apart.{ToldApart};

// What layers above may rest on. It does nothing: its contract is the law.
pub fn wording_stands()
    ensures { ToldApart }
{}
