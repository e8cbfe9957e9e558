//! The line that refuses a parameter. It takes no memory, so that its want never comes in its place.
ghost use Rattle.std.specs.Prelude.{◌≡◌, OnOk, OnErr};
ghost use Rattle.outside_io.specs.Causes.{HasCause};
ghost use Rattle.outside_io.specs.Told.{after_told, AppendsFront};
ghost use Rattle.whole_runs.specs.Texts.{param_line};

use crate::pieces::{write_number, write_two};
use outside_io::{Failed, Sink, write_all};
use page_codec::ParamFault;

/// Writes the line that refuses a parameter.
pub fn write_param<K: Sink>(sink: &mut K, fault: ParamFault) -> Result<(), Failed>
    ensures ok { OnOk result (K.taken sink.new ≡ after_told (K.taken sink.old) (param_line fault)) }
    ensures err { OnErr result (AppendsFront (K.taken sink.old) (K.taken sink.new) (param_line fault)) }
    ensures cause { HasCause (K.faults sink.old) (K.faults sink.new) result }
{
    match fault {
        ParamFault::Weight(weight) => write_number(sink, b"bad parameter: weight ", weight),
        ParamFault::Depth(depth) => write_number(sink, b"bad parameter: depth ", depth),
        ParamFault::Modulus(modulus) => write_number(sink, b"bad parameter: modulus ", modulus),
        ParamFault::NotBelow { weight, modulus } => write_two(
            sink,
            b"bad parameter: weight ",
            weight,
            b" not below modulus ",
            modulus,
        ),
        ParamFault::Order => write_all(sink, b"bad parameter: order\n"),
        ParamFault::Preferred(piece) => {
            write_number(sink, b"bad parameter: preferred ", piece as u64)
        }
        ParamFault::Columns(columns) => write_number(sink, b"bad parameter: columns ", columns),
    }
}
