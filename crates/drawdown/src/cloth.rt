// The cloth, pick by pick.
ghost use Rattle.std.specs.Prelude.{◌≡◌, ◌+◌, ◌-◌, ◌≤◌, [], ◌∷◌, ◌++◌, map, string_bytes, Some, None, OnOk};
ghost use Rattle.weave.specs.Cloth.{Draft};
ghost use Rattle.weave.specs.Calls.{cells_of};
ghost use Rattle.lent.specs.Shows.{Shows};
ghost use Rattle.answertext.specs.Answers.{cell_text};

use answertext::Told;
use anyhow::bail;
use encoding::MOST_CELLS;
use lent::Lent;
use picks::cells;
use std::alloc::{AllocError, Global};
use std::io::Write;
use wire::Answer;

// Picks or ends from one to before another.
#[derive(Clone, Copy)]
pub struct Span {
    pub from: u32,
    pub to: u32,
}

// So many from one on; none if there are no such numbers.
pub fn span_from(from: u32, count: u32) -> Option<Span>
    ensures { elim result [
      | Some s ↦ (s.from ≡ from) × (s.to ≡ from + count)
      | None ↦ 4294967296 ≤ from + count
    ] }
{
    let to = from.checked_add(count)?;
    Some(Span { from, to })
}

// Puts cells of a pick behind a text, | where the warp is over and - where the weft is.
fn put_cells(
    text: &mut String,
    draft: Lent<'_>,
    pick: u32,
    end: u32,
    count: u32,
) -> Result<(), AllocError>
    requires { count ≤ 1024 }
    ensures { OnOk result ((d : Draft) → Shows d draft.entry → string_bytes text.new ≡ string_bytes text.old ++ map cell_text (cells_of d pick end count)) }
{
    let Some(bits) = cells(draft, pick, end, count) else {
        return Ok(());
    };
    let answer = Answer::Cells { count, bits };
    let told = Told(&answer);
    write!(text, "{told}")
}

// Puts a pick behind a text, at some ends, and ends the line.
fn put_pick(text: &mut String, draft: Lent<'_>, pick: u32, ends: Span) -> Result<(), AllocError>
    ensures { OnOk result ((d : Draft) → Shows d draft.entry → string_bytes text.new ≡ string_bytes text.old ++ map cell_text (cells_of d pick ends.from (ends.to - ends.from)) ++ (10 ∷ [])) }
{
    for end in (ends.from..ends.to).step_by(MOST_CELLS as usize) {
        let count = MOST_CELLS.min(ends.to - end);
        put_cells(text, draft, pick, end, count)?;
    }
    writeln!(text)
}

// Writes the cloth of some picks and ends, a line for each pick.
pub fn write_cloth<W: Write>(
    heap: Global,
    out: &mut W,
    draft: Lent<'_>,
    picks: Span,
    ends: Span,
) -> anyhow::Result<()> {
    let mut text = String::new(heap);
    for pick in picks.from..picks.to {
        text.clear();
        // By `context` room for an error is made, and filled, at each pick.
        let Ok(()) = put_pick(&mut text, draft, pick, ends) else {
            bail!("no memory left");
        };
        out.write_all(text.as_bytes())?;
    }
    Ok(())
}
