//! Laws of what parsers take from packets.

ghost use Rattle.elastic_laws.specs.Packets.TakenLocations.{TakenHasLocations};
ghost use Rattle.elastic_laws.specs.Packets.ParserEnds.{EndsInTime};

/// A taken vector has exactly the locations that are listed for its program at these sizes, each with a word of its width,
/// which the number in it fits.
pub fn law_of_taken_locations()
    ensures { TakenHasLocations }
{}

/// A parser whose states can't come back has ended once it has passed as many states as there are: letting it go on gives no
/// other answer.
pub fn law_of_parser_ends()
    ensures { EndsInTime }
{}
