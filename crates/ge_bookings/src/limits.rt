// Whether two limits are one.
ghost use Rattle.std.specs.Prelude.{◌≡◌};
ghost use Rattle.ge_collections.specs.Keyed.{text_eq};
ghost use Rattle.ge_model_place.specs.Bookings.{same_instance, same_filters, same_key, same_limit};

use ge_rows::{InstanceId, LimitId, QuotaKey, Text};

/// Whether two names are one. Names are short, and their order is told in fewer steps than the equality of any two slices.
pub fn is_same_name(a: &Text, b: &Text) -> bool
    ensures { result ≡ text_eq a.now b.now }
{
    a.cmp(b).is_eq()
}

/// Whether two instances are one. Hosts differ more often than queues, and are compared first.
pub fn is_same_instance(a: &InstanceId, b: &InstanceId) -> bool
    ensures { result ≡ same_instance a.now b.now }
{
    is_same_name(&a.host, &b.host) && is_same_name(&a.queue, &b.queue)
}

fn has_same_filters(a: &QuotaKey, b: &QuotaKey) -> bool
    ensures { result ≡ same_filters a.now b.now }
{
    is_same_name(&a.user, &b.user)
        && is_same_name(&a.project, &b.project)
        && is_same_name(&a.pe, &b.pe)
        && is_same_name(&a.queue, &b.queue)
        && is_same_name(&a.host, &b.host)
}

fn is_same_key(a: &QuotaKey, b: &QuotaKey) -> bool
    ensures { result ≡ same_key a.now b.now }
{
    is_same_name(&a.set, &b.set)
        && a.rule == b.rule
        && has_same_filters(a, b)
        && is_same_name(&a.resource, &b.resource)
}

/// Whether two limits are one: of the same kind, with the same names.
pub fn is_same_limit(a: &LimitId, b: &LimitId) -> bool
    ensures { result ≡ same_limit a.now b.now }
{
    match (a, b) {
        (LimitId::Instance(a, name), LimitId::Instance(b, other)) => {
            is_same_instance(a, b) && is_same_name(name, other)
        }
        (LimitId::Host(a, name), LimitId::Host(b, other)) => {
            is_same_name(a, b) && is_same_name(name, other)
        }
        (LimitId::Global(name), LimitId::Global(other)) => is_same_name(name, other),
        (LimitId::Pe(name), LimitId::Pe(other)) => is_same_name(name, other),
        (LimitId::Quota(a), LimitId::Quota(b)) => is_same_key(a, b),
        (LimitId::Advance(n, a), LimitId::Advance(m, b)) => n == m && is_same_instance(a, b),
        _ => false,
    }
}
