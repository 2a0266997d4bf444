// Attributes of queues: names in their values and in their overrides.
ghost use Rattle.std.specs.Prelude.{◌≡◌, ◌||◌};
ghost use Rattle.std.specs.List.{list_any};
ghost use Rattle.ge_collections.specs.Keyed.{text_eq};
ghost use Rattle.ge_model_config.specs.Cited.{has_name as has_name_in};
ghost use Rattle.ge_model_config.specs.Used as used;
ghost use Rattle.ge_model_rows.specs.Pieces.{is_one_of};

use crate::there::has_name;
use ge_pieces::{is_among, is_same};
use ge_rows::{Attr, List, Table, Text, Value};

fn is_at<T>(name: &Text, one: &(Text, T)) -> bool
    ensures { result ≡ text_eq name.now one.now.0 }
{
    is_same(name, &one.0)
}

/// Whether an attribute has an override for a host or group.
pub(crate) fn overrides_at<T>(name: &Text, attribute: &Attr<T>) -> bool
    ensures { result ≡ used.overrides_at name.now attribute.now }
{
    attribute
        .overrides
        .items()
        .iter()
        .any(|one| is_at(name, one))
}

fn lists_it(name: &Text, one: &(Text, List<Text>)) -> bool
    ensures { result ≡ is_one_of name.now one.now.1 }
{
    is_among(name, one.1.items())
}

fn override_lists(name: &Text, overrides: &[(Text, List<Text>)]) -> bool
    ensures { result ≡ list_any (λ one. is_one_of name.now one.1) overrides.now }
{
    overrides.iter().any(|one| lists_it(name, one))
}

/// Whether lists of an attribute have a name.
pub(crate) fn lists_name(name: &Text, attribute: &Attr<List<Text>>) -> bool
    ensures { result ≡ used.lists_name name.now attribute.now }
{
    is_among(name, attribute.plain.items()) || override_lists(name, attribute.overrides.items())
}

fn has_it(name: &Text, one: &(Text, Table<Text, Value>)) -> bool
    ensures { result ≡ has_name_in one.now.1 name.now }
{
    has_name(&one.1, name)
}

fn override_has(name: &Text, overrides: &[(Text, Table<Text, Value>)]) -> bool
    ensures { result ≡ list_any (λ one. has_name_in one.1 name.now) overrides.now }
{
    overrides.iter().any(|one| has_it(name, one))
}

/// Whether tables of an attribute have a name.
pub(crate) fn has_value(name: &Text, attribute: &Attr<Table<Text, Value>>) -> bool
    ensures { result ≡ (has_name_in attribute.now.plain name.now
        || list_any (λ one. has_name_in one.1 name.now) attribute.now.overrides) }
{
    has_name(&attribute.plain, name) || override_has(name, attribute.overrides.items())
}
