//! The parameters of a parser and of a control.

ghost use Rattle.spelling.specs.Readers.{InRound, itself, Reads, ReadsWithin};
ghost use Rattle.p4_parser.specs.Declarations.{InParameters, SpellsControlParameters, SpellsLastParameters, SpellsParameters, SpellsParserParameters};

use spelling::{Brackets, Reader, SyntaxError};

/// What has the parameters.
#[derive(Clone, Copy)]
pub enum Owner {
    Parser,
    Control,
}

impl Owner {
    /// `(PARAMETERS)`
    pub fn parameters(self, reader: &mut Reader<'_>, depth: u32) -> Result<(), SyntaxError>
        ensures { ReadsWithin (InRound (InParameters self)) itself depth reader.old reader.new result }
    {
        Brackets::Round(depth).around(
            reader,
            |reader, _inner|
                ensures { Reads (λ _. SpellsParameters self) itself reader.old reader.new result }
            {
                match self {
                    Owner::Parser => of_parser(reader),
                    Owner::Control => of_control(reader),
                }
            },
        )
    }
}

/// `packet_in pkt, out headers_t hdr, inout meta_t meta, inout std_t std`
fn of_parser(reader: &mut Reader<'_>) -> Result<(), SyntaxError>
    ensures { Reads (λ _. SpellsParserParameters) itself reader.old reader.new result }
{
    reader.fixed_name(b"packet_in")?;
    reader.fixed_name(b"pkt")?;
    reader.sign(b",")?;
    reader.reserved(b"out")?;
    of_both(reader)
}

/// `inout headers_t hdr, inout meta_t meta, inout std_t std`
fn of_control(reader: &mut Reader<'_>) -> Result<(), SyntaxError>
    ensures { Reads (λ _. SpellsControlParameters) itself reader.old reader.new result }
{
    reader.reserved(b"inout")?;
    of_both(reader)
}

/// `headers_t hdr, inout meta_t meta, inout std_t std`, which ends both. NotProgram where something else follows.
fn of_both(reader: &mut Reader<'_>) -> Result<(), SyntaxError>
    ensures { Reads (λ _. SpellsLastParameters) itself reader.old reader.new result }
{
    reader.fixed_name(b"headers_t")?;
    reader.fixed_name(b"hdr")?;
    reader.sign(b",")?;
    reader.reserved(b"inout")?;
    reader.fixed_name(b"meta_t")?;
    reader.fixed_name(b"meta")?;
    reader.sign(b",")?;
    reader.reserved(b"inout")?;
    reader.fixed_name(b"std_t")?;
    reader.fixed_name(b"std")?;
    Ok(())
}
