// What is told of a cloth.
use answertext::{Members, Named};
use floats::{Kind, longest_float};
use layers::topmost;
use lent::Lent;
use sets::InUse;
use std::fmt;
use tieup::{Lines, Shafts, Treadles, alike, fewest};

// All that is told of the cloth of a draft.
#[derive(Clone, Copy)]
pub struct Report<'a>(pub Lent<'a>);

impl Report<'_> {
    // How large a repeat is, and how many shafts and treadles it uses.
    fn fmt_sizes<W: fmt::Write>(self, f: &mut fmt::Formatter<W>) -> fmt::Result {
        let used = InUse::of(self.0);
        writeln!(f, "ends in a repeat: {}", self.0.threading.length())?;
        writeln!(f, "picks in a repeat: {}", self.0.treadling.length())?;
        writeln!(f, "shafts in use: {}", used.shafts.count_ones())?;
        writeln!(f, "treadles in use: {}", used.treadles.count_ones())
    }

    // The longest float of a kind, and what has it. One that is as long as the repeat never ends.
    fn fmt_float<W: fmt::Write>(self, kind: Kind, f: &mut fmt::Formatter<W>) -> fmt::Result {
        let ends = self.0.threading.length();
        let picks = self.0.treadling.length();
        let (words, of, repeat) = match kind {
            Kind::EndsOnFace => ("ends on the face", "shaft", picks),
            Kind::EndsOnBack => ("ends on the back", "shaft", picks),
            Kind::PicksOnFace => ("picks on the face", "treadle", ends),
            Kind::PicksOnBack => ("picks on the back", "treadle", ends),
        };
        write!(f, "longest float of {words}: ")?;
        let Some(float) = longest_float(self.0, kind) else {
            return writeln!(f, "none");
        };
        write!(f, "{} ({of} {})", float.length, float.of)?;
        if float.length == repeat {
            write!(f, ", the whole repeat: it never ends")?;
        }
        writeln!(f)
    }

    // How few shafts and treadles would do.
    fn fmt_fewest<W: fmt::Write>(self, f: &mut fmt::Formatter<W>) -> fmt::Result {
        let needed = fewest(self.0);
        writeln!(f, "shafts that would do: {}", needed.shafts)?;
        writeln!(f, "treadles that would do: {}", needed.treadles)
    }

    // The shafts that are alike, or the treadles, each set of them at its first.
    fn fmt_alike<L: Lines, W: fmt::Write>(
        self,
        word: &str,
        f: &mut fmt::Formatter<W>,
    ) -> fmt::Result {
        for line in 0..u64::BITS {
            let lines = alike::<L>(self.0, line);
            if lines.count_ones() > 1 && lines.trailing_zeros() == line {
                writeln!(f, "{word}{} alike", Members(lines))?;
            }
        }
        Ok(())
    }

    // Whether the cloth hangs together, or which shafts and treadles lie over all else.
    fn fmt_layers<W: fmt::Write>(self, f: &mut fmt::Formatter<W>) -> fmt::Result {
        let Some(layer) = topmost(self.0) else {
            return writeln!(f, "hangs together");
        };
        let shafts = Named {
            word: "shafts",
            set: layer.shafts,
        };
        let treadles = Named {
            word: "treadles",
            set: layer.treadles,
        };
        writeln!(
            f,
            "does not hang together, over all else:{shafts}{treadles}"
        )
    }
}

impl fmt::Display for Report<'_> {
    fn fmt<W: fmt::Write>(&self, f: &mut fmt::Formatter<W>) -> fmt::Result {
        self.fmt_sizes(f)?;
        self.fmt_float(Kind::EndsOnFace, f)?;
        self.fmt_float(Kind::EndsOnBack, f)?;
        self.fmt_float(Kind::PicksOnFace, f)?;
        self.fmt_float(Kind::PicksOnBack, f)?;
        self.fmt_fewest(f)?;
        self.fmt_alike::<Shafts, _>("shafts", f)?;
        self.fmt_alike::<Treadles, _>("treadles", f)?;
        self.fmt_layers(f)
    }
}
