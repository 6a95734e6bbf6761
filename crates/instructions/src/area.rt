/// Which words an instruction loads or stores.
#[derive(Clone, Copy, PartialEq, Eq, Debug)]
pub enum Area {
    /// The global words.
    Globals,
    /// The variables of the newest activation.
    Variables,
}
