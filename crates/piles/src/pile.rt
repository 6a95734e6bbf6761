ghost use Rattle.std.specs.Prelude.{◌≡◌};
ghost use Rattle.clip.specs.Clips.{clipped};
ghost use Rattle.trim.specs.Trims.{trimmed};
ghost use Rattle.piles.specs.Piles.{paired};

use crate::layer::Layer;
use clip::Clip;
use ports::port::Port;
use trim::Trim;

/// A trim over a clip.
pub type Pair<P> = Trim<Clip<P>>;

/// A trim over a clip over a port.
pub fn pair<P: Port>(lower: P, layer: Layer) -> Pair<P>
    ensures means { trimmed result.offsets.each (clipped result.lower.bands.each (P.Port.meaning result.lower.lower)) ≡ paired layer (P.Port.meaning lower) }
    ensures lent { P.Port.lenders result.lower.lower ≡ P.Port.lenders lower }
{
    let Layer { offsets, bands } = layer;
    Trim::new(Clip::new(lower, bands), offsets)
}
