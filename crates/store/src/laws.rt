ghost use Rattle.store.specs.Laws.{StoreLaws};

// What layers above may rest on, whatever the store is made of. It does nothing: its contract is the laws.
pub fn store_stands()
    ensures { StoreLaws }
{}
