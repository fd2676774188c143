//! Penalties and balance amounts, in whole cents.
ghost use Rattle.std.specs.Prelude.{◌≡◌, ◌*◌, ◌^◌, ◌<◌, ◌≤◌, map, length, ◌*ℤ◌, unsigned_abs};
ghost use Rattle.forms.specs.Bounds.{rate_bound, price_bound};
ghost use Rattle.forms.specs.Figures.{rates_of};
ghost use Rattle.settlement.specs.Amounts.{most_imbalance, row_for, penalty as penalty_for, to_cents, imbalance_cost};

use forms::group::TariffRow;

/// 4000 kW over a quarter hour are a MWh.
const QUARTER_KW_PER_MWH: u64 = 4000;

/// The tariff row of a stage; a stage past the last row uses the last.
pub fn row_for(tariff: &[TariffRow], stage: u16) -> TariffRow
    requires { 0 < length tariff.now }
    ensures { rates_of result ≡ row_for (map rates_of tariff.now) stage }
{
    tariff[usize::from(stage).min(tariff.len() - 1)]
}

/// What a day costs whose excesses add to `energy`; nothing if they are 0.
pub fn penalty(row: TariffRow, energy: u64) -> u64
    requires { (row.rate ≤ rate_bound) × (energy < 2 ^ 44) }
    ensures value { result ≡ penalty_for (rates_of row) energy }
    ensures bound { result < 2 ^ 52 }
{
    if energy == 0 {
        return 0;
    }
    u64::from(row.fee) + u64::from(row.rate) * energy / QUARTER_KW_PER_MWH
}

/// A sum of 4000ths of a cent to the nearest cent, halves away from zero.
pub fn to_cents(sum: i64) -> i64
    ensures value { result ≡ to_cents sum }
    ensures bound { unsigned_abs result < 2 ^ 52 }
{
    let cents = ((sum.unsigned_abs() + QUARTER_KW_PER_MWH / 2) / QUARTER_KW_PER_MWH) as i64;
    if sum < 0 { -cents } else { cents }
}

// Both prices meet in these few functions alone: a struct for the two would be no plainer.

/// An imbalance times a price.
fn product(imbalance: i64, price: i32) -> i64
    requires { (unsigned_abs imbalance ≤ most_imbalance) × (unsigned_abs price ≤ price_bound) }
    ensures value { result ≡ imbalance *ℤ price }
    ensures bound { unsigned_abs result ≤ most_imbalance * price_bound }
{
    imbalance * i64::from(price)
}

/// What an imbalance costs at its price, in 4000ths of a cent: short below zero, long above.
pub(crate) fn imbalance_cost(imbalance: i64, long: i32, short: i32) -> i64
    requires { (unsigned_abs imbalance ≤ most_imbalance) × ((unsigned_abs long ≤ price_bound) × (unsigned_abs short ≤ price_bound)) }
    ensures value { result ≡ imbalance_cost imbalance long short }
    ensures bound { unsigned_abs result ≤ most_imbalance * price_bound }
{
    let price = if imbalance < 0 { short } else { long };
    -product(imbalance, price)
}
