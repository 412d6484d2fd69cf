// The keywords and the field names that a sheet knows.
ghost use Rattle.std.specs.Prelude.{◌≡◌};
ghost use Rattle.sheet.specs.Names.{the_default_field, keyword_for, field_of};

/// The first word of a line.
#[derive(Clone, Copy, Debug, PartialEq, Eq)]
pub enum Keyword {
    Field,
    Digits,
    Claim,
    Tail,
}

/// A field that a task can name.
#[derive(Clone, Copy, Debug, PartialEq, Eq)]
pub enum FieldName {
    P2,
    P3,
    P5,
    P7,
    P17,
    P31,
    P127,
    P251,
    B4,
    B16,
    B256,
    T256,
}

/// The field of a task that names none.
impl Default for FieldName {
    ghost is_default = { λ f. f ≡ the_default_field };

    fn default() -> FieldName {
        FieldName::P2
    }
}

// A match each: the answers are of two types, so one table cannot hold both, and two tables with their search are longer.
pub(crate) fn keyword_of(word: &[u8]) -> Option<Keyword>
    ensures { result ≡ keyword_for word.now }
{
    match word {
        b"field" => Some(Keyword::Field),
        b"digits" => Some(Keyword::Digits),
        b"claim" => Some(Keyword::Claim),
        b"tail" => Some(Keyword::Tail),
        _ => None,
    }
}

pub(crate) fn field_of(word: &[u8]) -> Option<FieldName>
    ensures { result ≡ field_of word.now }
{
    match word {
        b"p2" => Some(FieldName::P2),
        b"p3" => Some(FieldName::P3),
        b"p5" => Some(FieldName::P5),
        b"p7" => Some(FieldName::P7),
        b"p17" => Some(FieldName::P17),
        b"p31" => Some(FieldName::P31),
        b"p127" => Some(FieldName::P127),
        b"p251" => Some(FieldName::P251),
        b"b4" => Some(FieldName::B4),
        b"b16" => Some(FieldName::B16),
        b"b256" => Some(FieldName::B256),
        b"t256" => Some(FieldName::T256),
        _ => None,
    }
}
