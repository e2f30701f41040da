// A schema in print: as a person reads it, a line for each element, with its depth as indentation, and one for each edge; and
// the line that a reader takes it from.
#![tactic(auto)]

#[cfg(test)]
mod tests;
mod writing;

use model::Element;
use schema::schema::Schema;
use std::fmt;
pub use writing::schema_line;

// Prints as the schema's outline.
#[derive(Clone, Copy)]
pub struct Outline<'a>(pub &'a Schema);

// What is printed of the element at a place.
#[derive(Clone, Copy)]
struct Line {
    place: usize,
    element: Element,
    branch: u8,
    indent: u8,
}

impl fmt::Display for Line {
    fn fmt<W: fmt::Write>(&self, f: &mut fmt::Formatter<W>) -> fmt::Result {
        write!(f, "{:>5} ", self.place)?;
        // by a loop: an empty text padded to the width makes all that `inspect` does a fifteenth more
        for _ in 0..self.indent {
            write!(f, "  ")?;
        }
        match self.element {
            Element::Activity(id) => writeln!(f, "activity {id}"),
            Element::AndSplit => writeln!(f, "AND split"),
            Element::Bar => writeln!(f, "bar, branch {}", self.branch),
            Element::AndJoin => writeln!(f, "AND join"),
            Element::XorSplit(id) => writeln!(f, "XOR split {id}"),
            Element::XorJoin => writeln!(f, "XOR join"),
            Element::LoopStart => writeln!(f, "loop start"),
            Element::LoopEnd(id) => writeln!(f, "loop end {id}"),
        }
    }
}

impl Line {
    // The line of the element at `place`. Bars and ends of blocks stand as far in as their block's beginning.
    fn of(schema: &Schema, place: usize, element: Element) -> Line {
        let (depth, branch) = schema
            .position(place)
            .map_or((0, 0), |position| (position.depth, position.branch));
        let indent = match element {
            Element::Bar | Element::AndJoin | Element::XorJoin | Element::LoopEnd(_) =>
                depth.saturating_sub(1),
            Element::Activity(_) | Element::AndSplit | Element::XorSplit(_) | Element::LoopStart =>
                depth,
        };
        Line {
            place,
            element,
            branch,
            indent,
        }
    }
}

impl fmt::Display for Outline<'_> {
    fn fmt<W: fmt::Write>(&self, f: &mut fmt::Formatter<W>) -> fmt::Result {
        let Outline(schema) = self;
        for (place, element) in schema.row().iter().enumerate() {
            write!(f, "{}", Line::of(schema, place, *element))?;
        }
        for edge in schema.edges() {
            writeln!(f, "      sync edge {} -> {}", edge.source, edge.target)?;
        }
        Ok(())
    }
}
