//! Reading of the segments of an OCTET STRING (X.690 8.7.3). The segments are checked and their
//! octets are counted, but nothing is copied. A segment may itself consist of segments.
ghost use Rattle.std.specs.Prelude.{◌≡◌, true, IfOk, IfErr, OnOk};
ghost use Rattle.der.specs.Joining.{RefusesSegments};
ghost use Rattle.der.specs.Prelude.{OctetString, Same};
ghost use Rattle.der_segments.specs.Measured.{Measures, NotMemory};

use der::{Error, Reader, ReaderExt, Tag, close_value, segment_header};

// Reads segments up to the end of the reader, and returns the number of octets that they are joined
// to.
pub(crate) fn measure_segments<R: Reader>(reader: &mut R) -> Result<u32, Error>
    ensures same { Same (R.state reader.old) (R.state reader.new) }
    ensures ok { IfOk result (λ n. Measures (R.state reader.old) n (R.state reader.new)) }
    ensures to_the_end { OnOk result ((R.state reader.new).end ≡ (R.state reader.new).position) }
    ensures exact { R.reliable ≡ true
        → IfErr result (λ e. RefusesSegments OctetString (R.state reader.old) e
        (R.state reader.new)) }
    ensures no_memory { R.reliable ≡ true → IfErr result NotMemory }
{
    let mut count = 0u32;
    'segments: while !reader.is_finished() {
        let header = segment_header(reader, Tag::OctetString)?;
        if header.is_constructed() {
            let length = header.length().sans_eoc();
            let outer = reader.enter_nested(length)?;
            let answer = measure_segments(reader);
            let inner = close_value(reader, length, outer, answer)?;
            count += inner;
        } else {
            let length = header.length();
            let _octets = reader.read_slice(length)?;
            count += u32::from(length);
        }
    }
    Ok(count)
}
