// How a name is read byte by byte.
ghost use Rattle.std.specs.Prelude.{◌≡◌};
ghost use Rattle.names.specs.Begun.{reading_behind};
ghost use Rattle.names.specs.Same.{reading_of};

use crate::characters::Short;

// As it stands, or by its segments, where what is left of a character's form comes first.
#[derive(Clone, Copy)]
pub enum Reading {
    Whole,
    Segments,
    Form(Short),
}

// By segments, behind the first byte of a form.
pub fn reading_behind(form: Option<Short>) -> Reading
    ensures { result ≡ reading_behind form }
{
    match form {
        Some(form) => Reading::Form(form),
        None => Reading::Segments,
    }
}

// By segments, or as it stands.
pub fn reading_of(parted: bool) -> Reading
    ensures { result ≡ reading_of parted }
{
    if parted {
        Reading::Segments
    } else {
        Reading::Whole
    }
}
