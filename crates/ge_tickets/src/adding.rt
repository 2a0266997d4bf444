//! Amounts by node.

ghost use Rattle.std.specs.Prelude.{◌≡◌, OnOk};
ghost use Rattle.ge_model_order.specs.ShareTables.{amount_at, raised_amount, raised_along};

use ge_base::sum_of;
use ge_rows::Table;
use std::alloc::AllocError;

/// The amount at a node.
pub(crate) fn amount(amounts: &Table<u32, u128>, id: u32) -> u128
    ensures { result ≡ amount_at amounts.now id }
{
    match amounts.get(&id) {
        Some(amount) => *amount,
        None => 0,
    }
}

/// Adds to the amount at a node.
pub(crate) fn raise(amounts: &mut Table<u32, u128>, id: u32, more: u128) -> Result<(), AllocError>
    ensures { OnOk result (amounts.new ≡ raised_amount more amounts.old id) }
{
    let sum = sum_of(amount(amounts, id), more);
    amounts.insert(id, sum)?;
    Ok(())
}

/// Adds to the amount at each of these nodes.
pub(crate) fn raise_along(
    amounts: &mut Table<u32, u128>,
    ids: &[u32],
    more: u128,
) -> Result<(), AllocError>
    ensures { OnOk result (amounts.new ≡ raised_along amounts.old ids.now more) }
{
    for id in ids {
        raise(amounts, *id, more)?;
    }
    Ok(())
}
