ghost use Rattle.layout.specs.Laws.{ContentRules};

// What layers above may rest on. It does nothing: its contract is the law.
pub fn layout_stands()
    ensures { ContentRules }
{}
