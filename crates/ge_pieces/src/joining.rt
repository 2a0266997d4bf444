//! Texts put together.

ghost use Rattle.std.specs.Prelude.{◌≡◌, ◌++◌, IfOk, OnOk, flat_map};
ghost use Rattle.ge_model_rows.specs.Pieces.{joined_by, list_text, lower_case};
ghost use Rattle.ge_model_rows.specs.Values.{word_text};

use ge_rows::Text;
use std::alloc::{AllocError, Global};

fn append_next(line: &mut Text, between: &[u8], text: &Text) -> Result<(), AllocError>
    ensures { OnOk result (line.new ≡ line.old ++ (between.now ++ text.now)) }
{
    line.append(between)?;
    line.append(text.bytes())
}

fn append_others(line: &mut Text, between: &[u8], texts: &[Text]) -> Result<(), AllocError>
    ensures { OnOk result (line.new ≡ line.old ++ flat_map (λ t. between.now ++ t) texts.now) }
{
    for text in texts {
        append_next(line, between, text)?;
    }
    Ok(())
}

/// Puts texts at the end of a line, with one between each two. After want of memory some of them may be there.
pub fn append_joined(line: &mut Text, between: &[u8], texts: &[Text]) -> Result<(), AllocError>
    ensures { OnOk result (line.new ≡ line.old ++ joined_by between.now texts.now) }
{
    match texts {
        [] => Ok(()),
        [first, others @ ..] => {
            line.append(first.bytes())?;
            append_others(line, between, others)
        }
    }
}

/// Texts with one between each two.
pub fn join(alloc: Global, between: &[u8], texts: &[Text]) -> Result<Text, AllocError>
    ensures { IfOk result (λ text. text ≡ joined_by between.now texts.now) }
{
    let mut text = Text::new(alloc);
    append_joined(&mut text, between, texts)?;
    Ok(text)
}

/// Texts joined by commas, or NONE where there is none.
pub fn join_list(alloc: Global, texts: &[Text]) -> Result<Text, AllocError>
    ensures { IfOk result (λ text. text ≡ list_text texts.now) }
{
    if texts.is_empty() {
        return Text::from_bytes(alloc, b"NONE");
    }
    join(alloc, b",", texts)
}

/// A word, or NONE for the empty one.
pub fn or_none_text(word: &Text) -> &[u8]
    ensures { result.now ≡ word_text word.now }
{
    if word.is_empty() {
        b"NONE"
    } else {
        word.bytes()
    }
}

/// A text with its ASCII letters in lower case.
pub fn lower(alloc: Global, text: &[u8]) -> Result<Text, AllocError>
    ensures { IfOk result (λ lowered. lowered ≡ lower_case text.now) }
{
    let mut lowered = Text::new(alloc);
    for b in text {
        lowered.push(b.to_ascii_lowercase())?;
    }
    Ok(lowered)
}
