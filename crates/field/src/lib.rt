// The fields of a layout, checked in order: the first that is cut or breaks its rule is the fault.
#![tactic(auto)]

ghost use Rattle.std.specs.Prelude.{◌≡◌};
ghost use Rattle.field.specs.Layouts.{holds, ranged, Checked};
ghost use Rattle.field.specs.Laws.{OneVerdict};

use values::refusal::Refusal;

// A field: its place and its width in bytes, and whether its value obeys the field's rule.
#[derive(Clone, Copy)]
pub struct Field {
    pub place: usize,
    pub width: usize,
    pub good: bool,
}

impl Field {
    // One byte whose number lies within the limits, both of which are allowed.
    pub fn ranged(place: usize, number: u32, limits: (u32, u32)) -> Field
        ensures { result ≡ ranged place number limits }
    {
        let (low, high) = limits;
        Field {
            place,
            width: 1,
            good: low <= number && number <= high,
        }
    }

    // The field ends within the first `size` bytes, and obeys its rule.
    pub fn holds(&self, size: usize) -> bool
        ensures { result ≡ holds size self.now }
    {
        self.width <= size && self.place <= size - self.width && self.good
    }
}

// Checks the fields in order, in a layout of which `size` bytes are there.
pub fn check(fields: &[Field], size: usize) -> Result<(), Refusal>
    ensures verdict { Checked size fields.now result }
    ensures laws { OneVerdict }
{
    for field in fields {
        if !field.holds(size) {
            return Err(Refusal::NotAFrame { place: field.place });
        }
    }
    Ok(())
}
