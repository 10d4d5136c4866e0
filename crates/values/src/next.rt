// What the next line of a sheet says. Its contract speaks of the line's row and place alone, not of its fields.
#![tactic(auto, unfolding(lines::specs::Lines::line_at))]

ghost use Rattle.std.specs.Prelude.{◌≡◌};
ghost use Rattle.text.specs.Fields.{stand, spot_at};
ghost use Rattle.lines.specs.Kinds.{read_opening, read_count, read_entry};
ghost use Rattle.lines.specs.Lines.{ending, settled, line_at};

use crate::values::{count, entry, opening};
use lines::faults::LineFault;
use lines::line::{Line, section_letter};
use rules::entry::Entry;
use text::faults::Section;
use text::reader::Reader;

// The entry of the next line, which is one of the section.
pub fn next_entry(section: Section, reader: &mut Reader<'_>) -> Result<Entry, LineFault>
    ensures read { ending result (stand reader.new) ≡ line_at section (read_entry section) (stand reader.old) }
    ensures spot { settled result reader.new.spot ≡ settled result (spot_at section (stand reader.old)) }
{
    let line = Line::next(section, reader)?;
    Ok(entry(&line)?)
}

// How many entries the section has, by the next line.
pub fn next_count(section: Section, reader: &mut Reader<'_>) -> Result<u64, LineFault>
    ensures { ending result (stand reader.new) ≡ line_at section (read_count section) (stand reader.old) }
{
    let line = Line::next_count(section, reader)?;
    Ok(count(&line, section_letter(section))?)
}

// The year and the peak, by the next line.
pub fn next_opening(reader: &mut Reader<'_>) -> Result<(u64, u64), LineFault>
    ensures read { ending result (stand reader.new) ≡ line_at Section.Y read_opening (stand reader.old) }
    ensures spot { settled result reader.new.spot ≡ settled result (spot_at Section.Y (stand reader.old)) }
{
    let line = Line::next_opening(reader)?;
    Ok(opening(&line)?)
}
