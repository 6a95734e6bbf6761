use ports::sample::Sample;

/// One thing to do on a channel.
// Two actions, and no Option: a take is not the lack of a feed.
#[derive(Clone, Copy)]
pub enum Action {
    /// Feed a value.
    Feed(Sample),
    /// Take the oldest sample.
    Take,
}

/// What came of an action that the port did not refuse.
// Two outcomes, and no Option: of a take it says besides whether a sample waited.
#[derive(Clone, Copy)]
pub enum Outcome {
    /// The feed was accepted.
    Fed,
    /// This sample was taken, or none waited.
    Taken(Option<Sample>),
}
