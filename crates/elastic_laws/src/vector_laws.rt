//! Laws of vectors and their places, for what reasons about them.

ghost use Rattle.elastic_ast.specs.Containers.LocationPlaces.{PlacesTell};
ghost use Rattle.elastic_ast.specs.Containers.Vectors.{WritesCommute, WritesAreRead, WritesStay};

/// A write is read at its place and seen at no other, and writes to different places commute.
pub fn law_of_writes()
    ensures commute { WritesCommute }
    ensures read { WritesAreRead }
    ensures stay { WritesStay }
{}

/// A place tells its location and its index.
pub fn law_of_places()
    ensures { PlacesTell }
{}
