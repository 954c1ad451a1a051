//! The operators, by their levels.

ghost use Rattle.std.specs.Prelude.{◌≡◌, None};
ghost use Rattle.spelling.specs.Reading.{ahead};
ghost use Rattle.p4_expr.specs.Standing.{NoneStands};
ghost use Rattle.p4_expr.specs.Readings.{PassesOperator};

use operator_table::operators;
use spelling::Reader;

// Goes over a sign, or over two that touch.
macro_rules! goes_over {
    ($reader:ident, $sign:literal) => {
        $reader.eat_sign($sign.as_bytes())
    };
    ($reader:ident, $one:literal $other:literal) => {
        $reader.eat_touching($one.as_bytes(), $other.as_bytes())
    };
}

// The answer at a level: the code of the operator whose signs the reader goes over.
macro_rules! by_level {
    ([$reader:ident $level:ident]
        $($at:literal { $($code:literal $($sign:literal)+ $sort:ident),+ })+) => {
        match $level {
            $($at => {
                $(if goes_over!($reader, $($sign)+) {
                    return Some($code);
                })+
                None
            })+
            _ => None,
        }
    };
}

/// Goes over an operator of a level where one stands next, and gives its code. Else the reader stays.
#[tactic(auto, using(crate::proofs::OperatorSigns::passes, crate::proofs::OperatorSigns::stayed))]
pub fn operator(reader: &mut Reader<'_>, level: u8) -> Option<u16>
    ensures taken { PassesOperator level reader.old reader.new result }
    ensures left { result ≡ None → reader.new ≡ reader.old }
    ensures none { result ≡ None → NoneStands level (ahead reader.old) }
{
    operators!([by_level] reader level)
}
