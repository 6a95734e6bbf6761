use clip::bands::Bands;
use trim::offsets::Offsets;

/// The settings of a trim over a clip.
#[derive(Drop)]
pub struct Layer {
    /// The trim's offsets.
    pub offsets: Offsets,
    /// The clip's bands.
    pub bands: Bands,
}

/// The settings of a pile of four: a trim over a clip over a trim over a clip.
#[derive(Drop)]
pub struct Layers {
    /// The upper two.
    pub high: Layer,
    /// The lower two.
    pub low: Layer,
}
