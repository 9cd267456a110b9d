ghost use Rattle.std.specs.Prelude.{◌≡◌, true};
ghost use Rattle.content.specs.Rules.{sound};
ghost use Rattle.content.specs.Numbers.{stored_body};

use crate::stored::StoredContent;

// What a transaction read and wrote, sound whoever holds it.
#[derive(Clone, Copy)]
pub struct Content {
    pub(crate) stored: StoredContent,
    ghost ok: { sound (stored_body stored) ≡ true },
}
