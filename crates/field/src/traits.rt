// A field by what it means. A digit of a field with q elements is a number below q in a u16.
ghost use Rattle.std.specs.Prelude.{◌≡◌, ◌<◌};
ghost use Rattle.field.specs.Meaning.{Meaning, digit as counted, add as sum_of, multiply as product_of, Negates, Inverts};
ghost use Rattle.field.specs.Laws.{FieldLaws};

pub trait Field {
    ghost means: { Self → Meaning };

    // The values whose making accepted them: the laws are owed of these, by default of every value.
    ghost made: { Self → Type 0 } = { λ _. Unit {0} };

    fn size(&self) -> u32
        ensures { result ≡ (means self.now).order };

    // What an operand counts as.
    fn digit(&self, a: u16) -> u16
        ensures is { result ≡ counted (means self.now) a }
        ensures within { 0 < (means self.now).order → result < (means self.now).order }
    {
        if (a as u32) < self.size() { a } else { 0 }
    }

    fn add(&self, a: u16, b: u16) -> u16
        ensures { result ≡ sum_of (means self.now) a b };

    fn negate(&self, a: u16) -> u16
        ensures { Negates (means self.now) a result };

    fn multiply(&self, a: u16, b: u16) -> u16
        ensures { result ≡ product_of (means self.now) a b };

    // Each kind tests for 0 itself: a shared test would need the inverse of a digit other than 0 as one more member.
    fn invert(&self, a: u16) -> Option<u16>
        ensures { made self.now → Inverts (means self.now) a result };

    ghost lawful: { (f : Self) → made f → FieldLaws (means f) };
}
