use poly_model::Row;

/// What is found on the generic branch of a proof.
#[derive(Debug, Drop)]
pub enum Found {
    /// A point at which the hypotheses and the conclusions are zero, and no condition is.
    Sample(Row<i128>),
    /// A point at which the hypotheses are zero, and neither a condition nor the conclusion of this number is.
    Refuted { k: u8, point: Row<i128> },
    /// No point, which says nothing of the statement.
    Nothing,
}
