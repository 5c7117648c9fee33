//! What a run reports.

/// The result of a run of the service `S`. `E` is an entry of the journal, and `K` what is kept of
/// an answer. `answers` and `outputs` have a place for each session.
#[derive(Drop)]
pub struct RunReport<S, E, K> {
    /// The requests of all sessions in the order in which they took effect.
    pub journal: Vec<E>,
    /// What is kept of each session's answers, in order.
    pub answers: Vec<Vec<K>>,
    /// Each session's answers as they are printed.
    pub outputs: Vec<Vec<u8>>,
    /// The service after all requests.
    pub service: S,
}
