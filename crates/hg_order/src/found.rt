use hg_calls::Call;

/// What came of a search for an order.
#[derive(Debug, Drop)]
pub enum Found {
    /// The calls, in an order in which a core gives the same answers.
    Order(Vec<Call>),
    /// There is none. So many calls of each worker, by number, are the shortest front that no order
    /// comes past; none is told where the search for it was given up.
    Nothing(Option<Vec<usize>>),
    /// The search was given up.
    GivenUp,
}
