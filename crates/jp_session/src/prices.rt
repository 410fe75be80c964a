/// What a plan is estimated to give and what it costs.
#[derive(Clone, Copy)]
pub struct Price {
    pub rows: u64,
    pub cost: u128,
}
