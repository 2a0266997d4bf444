//! The filters of a rule: elements joined by commas, perhaps in braces (sge_resource_quota(5)).

ghost use Rattle.std.specs.Prelude.{◌≡◌, ◌++◌, ◌∷◌, [], OnOk, IfOk, not, map, filter, drop};
ghost use Rattle.std.specs.List.{list_all};
ghost use Rattle.ge_model_rows.specs.Pieces.{pieces_at};
ghost use Rattle.ge_model_grammar.specs.Rules.{is_without, is_element, filter_with, between_braces, filter_of};
ghost use Rattle.ge_pieces.specs.Gives.{Gives};

use ge_pieces::{ReadFault, begins, ends, is_word, slices_at};
use ge_rows::{Filter, List, Text};
use std::alloc::{AllocError, Global};

fn is_left_out(element: &[u8]) -> bool
    ensures { result ≡ is_without element.now }
{
    begins(b"!", element)
}

fn is_an_element(element: &[u8]) -> bool
    ensures { result ≡ is_element element.now }
{
    !element.is_empty() && !is_word(element, b"!")
}

fn are_elements(elements: &[&[u8]]) -> bool
    ensures { result ≡ list_all is_element (map (λ e. e.now) elements.now) }
{
    for element in elements {
        if !is_an_element(element) {
            return false;
        }
    }
    true
}

fn behind_mark(element: &[u8]) -> &[u8]
    ensures { result.now ≡ drop 1 element.now }
{
    match element {
        [] => &[],
        [_, rest @ ..] => rest,
    }
}

fn plain_elements(alloc: Global, elements: &[&[u8]]) -> Result<List<Text>, AllocError>
    ensures { IfOk result (λ plain. plain
        ≡ filter (λ element. not (is_without element)) (map (λ e. e.now) elements.now)) }
{
    let mut plain = List::new(alloc);
    for element in elements {
        if !is_left_out(element) {
            plain.push(Text::from_bytes(alloc, element)?)?;
        }
    }
    Ok(plain)
}

fn left_out_elements(alloc: Global, elements: &[&[u8]]) -> Result<List<Text>, AllocError>
    ensures { IfOk result (λ without. without
        ≡ map (drop 1) (filter is_without (map (λ e. e.now) elements.now))) }
{
    let mut without = List::new(alloc);
    for element in elements {
        if is_left_out(element) {
            without.push(Text::from_bytes(alloc, behind_mark(element))?)?;
        }
    }
    Ok(without)
}

fn read_elements(alloc: Global, braces: bool, elements: &[&[u8]]) -> Result<Filter, ReadFault>
    ensures { Gives result (filter_with braces (map (λ e. e.now) elements.now)) }
{
    if !are_elements(elements) {
        return Err(ReadFault::Syntax);
    }
    let plain = plain_elements(alloc, elements)?;
    let without = left_out_elements(alloc, elements)?;
    Ok(Filter {
        braces,
        plain,
        without,
    })
}

fn read_list(alloc: Global, braces: bool, text: &[u8]) -> Result<Filter, ReadFault>
    ensures { Gives result (filter_with braces (pieces_at 44 text.now)) }
{
    let elements = slices_at(alloc, b',', text)?;
    read_elements(alloc, braces, elements.as_slice())
}

fn inside_braces(text: &[u8]) -> &[u8]
    ensures { result.now ≡ between_braces text.now }
{
    let inside = behind_mark(text);
    let len = inside.len().saturating_sub(1);
    inside.split_at(len).0
}

/// A filter as it is written: braces stand on both sides or on none.
pub(crate) fn read_filter(alloc: Global, text: &[u8]) -> Result<Filter, ReadFault>
    ensures { Gives result (filter_of text.now) }
{
    match (begins(b"{", text), ends(b"}", text)) {
        (true, true) => read_list(alloc, true, inside_braces(text)),
        (false, false) => read_list(alloc, false, text),
        (true, false) | (false, true) => Err(ReadFault::Syntax),
    }
}
