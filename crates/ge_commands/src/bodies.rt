//! The body that a text is.

ghost use Rattle.ge_model_grammar.specs.Bodies.{body_of_lines, body_of};
ghost use Rattle.ge_pieces.specs.Gives.{Gives};

use crate::attributes::read_attribute_body;
use crate::complexes::read_complex_body;
use crate::nodes::read_node_body;
use crate::rule_sets::read_rule_set;
use ge_model_grammar::Body;
use ge_pieces::{ReadFault, has_plain_lines, lines_of_body};
use ge_rows::{ObjectKind, Text};
use std::alloc::Global;

// The body that lines are. The lists of managers and operators have none.
fn read_lines(alloc: Global, kind: ObjectKind, lines: &[Text]) -> Result<Body, ReadFault>
    ensures { Gives result (body_of_lines kind lines.now) }
{
    match kind {
        ObjectKind::Complexes => read_complex_body(alloc, lines),
        ObjectKind::Shares => read_node_body(alloc, lines),
        ObjectKind::Quota => read_rule_set(alloc, lines),
        ObjectKind::Managers | ObjectKind::Operators => Err(ReadFault::Syntax),
        ObjectKind::Host
        | ObjectKind::Group
        | ObjectKind::Queue
        | ObjectKind::Pe
        | ObjectKind::Set
        | ObjectKind::User
        | ObjectKind::Project
        | ObjectKind::Sched => read_attribute_body(alloc, kind, lines),
    }
}

/// The body that a text is, of a kind of object: contracts see what `body_of` gives. Syntax where a byte doesn't print and
/// is no blank, where a line isn't in the grammar of its kind, where an attribute comes twice, is unknown or has no value,
/// and where the one that names the object is missing.
#[tactic(auto, unfolding(ge_model_grammar::specs::Bodies::body_of))]
pub fn body(alloc: Global, kind: ObjectKind, text: &[u8]) -> Result<Body, ReadFault>
    ensures { Gives result (body_of kind text.now) }
{
    if !has_plain_lines(text) {
        return Err(ReadFault::Syntax);
    }
    let lines = lines_of_body(alloc, text)?;
    read_lines(alloc, kind, lines.items())
}
