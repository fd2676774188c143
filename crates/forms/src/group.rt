//! A balance group's figures and the rows of the tariff.

/// The limits on a group's open position, by phase.
#[derive(Clone, Copy, Default)]
pub struct Limits {
    pub ahead: u32,
    pub near: u32,
    pub after: u32,
}

/// What the opening form says of a group. Powers are in kW.
#[derive(Clone, Copy, Default)]
pub struct Group {
    pub metered: bool,
    pub prod_max: u32,
    pub pump_depth: u32,
    pub limits: Limits,
}

/// What a marked day costs at a stage: a fee in cents, and a rate in cents per MWh.
#[derive(Clone, Copy, Default)]
pub struct TariffRow {
    pub fee: u32,
    pub rate: u32,
}
