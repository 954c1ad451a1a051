//! The forms of primary expressions, by the words that begin them.

ghost use Rattle.std.specs.Prelude.{◌↔◌, IsTrue};
ghost use Rattle.spelling.specs.Reading.{ahead};
ghost use Rattle.p4_expr.specs.FormsAhead.{TellsForm};
ghost use Rattle.p4_expr.specs.Readings.{BeginsName};
ghost use Rattle.p4_expr.specs.Standing.{StandsCast, StandsHash, StandsSlice, StandsTest};

use spelling::Reader;

/// The form of a primary expression without the slices behind it.
#[derive(Clone, Copy)]
pub enum Form {
    Number,
    Truth,
    Name,
    Place,
    Validity,
    Hash,
    Bracketed,
    Other,
}

/// The form of the primary expression that may stand next; Other where none does.
pub fn form_ahead(reader: &Reader<'_>) -> Form
    ensures { TellsForm (ahead reader.now) result }
{
    if reader.is_at_any_name() {
        return name_form(reader);
    }
    if reader.is_at_number() {
        return Form::Number;
    }
    if reader.is_at_sign(b"(") {
        return Form::Bracketed;
    }
    if reader.is_at_reserved(b"true") {
        return Form::Truth;
    }
    if reader.is_at_reserved(b"false") {
        return Form::Truth;
    }
    Form::Other
}

/// The form of what begins with the name that stands next.
fn name_form(reader: &Reader<'_>) -> Form
    ensures { BeginsName (ahead reader.now) → TellsForm (ahead reader.now) result }
{
    if is_at_hash(reader) {
        return Form::Hash;
    }
    if !reader.later(1).is_at_sign(b".") {
        return Form::Name;
    }
    if reader.is_at_name(b"hdr") {
        return if is_at_test(reader) {
            Form::Validity
        } else {
            Form::Place
        };
    }
    if reader.is_at_name(b"meta") {
        return Form::Place;
    }
    if reader.is_at_name(b"std") {
        return Form::Place;
    }
    Form::Name
}

/// Whether behind the header that stands next its test follows, `.isValid(`.
fn is_at_test(reader: &Reader<'_>) -> bool
    ensures { IsTrue result ↔ StandsTest (ahead reader.now) }
{
    reader.later(3).is_at_sign(b".")
        && reader.later(4).is_at_name(b"isValid")
        && reader.later(5).is_at_sign(b"(")
}

/// Whether a hash stands next, `hash(`.
fn is_at_hash(reader: &Reader<'_>) -> bool
    ensures { IsTrue result ↔ StandsHash (ahead reader.now) }
{
    reader.is_at_name(b"hash") && reader.later(1).is_at_sign(b"(")
}

/// Whether a cast stands next, `(bit`.
pub fn is_at_cast(reader: &Reader<'_>) -> bool
    ensures { IsTrue result ↔ StandsCast (ahead reader.now) }
{
    reader.is_at_sign(b"(") && reader.later(1).is_at_reserved(b"bit")
}

/// Whether a slice goes on next, `[` and a number.
pub fn is_at_slice(reader: &Reader<'_>) -> bool
    ensures { IsTrue result ↔ StandsSlice (ahead reader.now) }
{
    reader.is_at_sign(b"[") && reader.later(1).is_at_number()
}
