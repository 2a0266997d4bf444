// A set as text.
ghost use Rattle.std.specs.Prelude.{◌≡◌, ◌++◌, IfOk, OnOk, map, codes};
ghost use Rattle.ge_model_rows.specs.SetText.{range_text, span_text, set_text};

use crate::cutting::is_one;
use ge_pieces::join;
use ge_rows::{List, TaskSet, TaskSpan, Text};
use std::alloc::{AllocError, Global};

fn spell_range(alloc: Global, span: &TaskSpan) -> Result<Text, AllocError>
    ensures { IfOk result (λ text. text ≡ range_text span.now) }
{
    let mut text = Text::from_bytes(alloc, span.first.to_string(alloc)?.as_bytes())?;
    text.push(b'-')?;
    text.append(span.last.to_string(alloc)?.as_bytes())?;
    text.push(b':')?;
    text.append(span.step.to_string(alloc)?.as_bytes())?;
    Ok(text)
}

fn spell_span(alloc: Global, span: &TaskSpan) -> Result<Text, AllocError>
    ensures { IfOk result (λ text. text ≡ span_text span.now) }
{
    if is_one(span) {
        Text::from_bytes(alloc, span.first.to_string(alloc)?.as_bytes())
    } else {
        spell_range(alloc, span)
    }
}

fn spell_spans(alloc: Global, spans: &[TaskSpan]) -> Result<List<Text>, AllocError>
    ensures { IfOk result (λ texts. texts ≡ map span_text spans.now) }
{
    let mut texts = List::new(alloc);
    for span in spans {
        texts.push(spell_span(alloc, span)?)?;
    }
    Ok(texts)
}

/// A set as text (qstat): its spans joined by commas, `F` for one number, else `F-L:S`.
pub fn text(alloc: Global, s: &TaskSet) -> Result<Text, AllocError>
    ensures { IfOk result (λ text. text ≡ set_text s.now) }
{
    let texts = spell_spans(alloc, s.spans())?;
    join(alloc, b",", texts.items())
}
