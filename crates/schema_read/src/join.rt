//! Joins strings in the constructed form.
ghost use Rattle.std.specs.Prelude.{ℕ, List, IfOk, IfSome, IfNone};
ghost use Rattle.schema_read.specs.Strings.{AreSegments};
ghost use Rattle.schema_read.specs.Text.{text_of};

use crate::departure::Departure;
use crate::entry::Entry;
use crate::full::Full;
use crate::notes::Notes;
use crate::opened::Opened;
use crate::place::Place;
use crate::role::LEVELS;
use crate::strings::joined;
use crate::text::Text;
use ber::Universal;

/// Joins the segments of a string in the constructed form. `contents` are the contents octets of
/// the constructed encoding. Returns the contents octets that a primitive encoding of the same
/// value has, in the memory `room`. `None` if `contents` are not segments of a string of this type
/// by BER, or are nested more than 64 deep.
///
/// # Errors
///
/// `room` is too small. It is large enough if it has one octet more than `contents`.
pub fn join_segments<'t>(
    universal: Universal,
    contents: &[u8],
    room: &'t mut [u8],
) -> Result<Option<Text<'t>>, Full>
    ensures joined { IfOk result (λ o. IfSome o (λ text. AreSegments 64 universal contents.now (text_of text))) }
    ensures none { IfOk result (λ o. IfNone o ((text : List ℕ) → AreSegments 64 universal contents.now text → ⊥)) }
{
    let mut entries: [Entry; 0] = [];
    let mut departures: [Departure; 0] = [];
    let mut notes = Notes::new(&mut entries, &mut departures, false, contents.len());
    let opened = Opened {
        inside: Place {
            octets: contents,
            end: contents.len(),
        },
        start: 0,
        marked: false,
        beyond: &[],
    };
    let read = joined(&mut notes, room, LEVELS, universal, 0, opened)?;
    if read.verdict.is_ber() {
        Ok(Some(read.text))
    } else {
        Ok(None)
    }
}
