ghost use Rattle.std.specs.Prelude.{◌≡◌, replicate, pos, is_none, unwrap_or, if◌then◌else◌};
ghost use Rattle.std.specs.Option.{option_map};
ghost use Rattle.integer.specs.Ends.{integer};
ghost use Rattle.ports.specs.Refusals.{numbered};
ghost use Rattle.script.specs.Settling.{setting_answer, base_of, base_after, offsets_after, bands_after};

use crate::answer::Answer;
use crate::command::Command;
use clip::bands::Bands;
use ports::refusal::Refusal;
use trim::offsets::Offsets;

/// The port under all.
// Two makes, and no Option: a latch is not the lack of a queue.
#[derive(Clone, Copy)]
pub enum Base {
    /// A queue over memory of this many samples.
    Queue(u32),
    /// A latch.
    Latch,
}

/// What a script says of its port before it uses it.
#[derive(Drop)]
pub struct Settings {
    /// The port under all, once a setting has come.
    base: Option<Base>,
    /// The trim's offsets.
    pub offsets: Offsets,
    /// The clip's bands.
    pub bands: Bands,
}

impl Settings {
    /// No setting: the offset 0 and the band of all INTEGERs for every channel.
    pub fn new() -> Settings
        ensures base { result.base ≡ None }
        ensures offsets { result.offsets.each ≡ replicate 16 (pos 0) }
        ensures bands { result.bands.each ≡ replicate 16 integer }
    {
        Settings {
            base: None,
            offsets: Offsets::none(),
            bands: Bands::whole(),
        }
    }

    /// The port under all: a queue over 1,600 samples where none was chosen.
    pub fn base(&self) -> Base
        ensures { result ≡ base_of self.now.base }
    {
        self.base.unwrap_or(Base::Queue(1600))
    }

    /// Takes in a setting and answers it, or answers nothing where the command is no setting.
    /// The port under all is chosen before any other setting, and at most once.
    pub fn take_in(&mut self, command: Command) -> Option<Result<Answer, Refusal>>
        ensures answer { option_map numbered result ≡ setting_answer self.old.base command }
        ensures base { self.new.base ≡ base_after self.old.base command }
        ensures offsets { self.new.offsets.each ≡ offsets_after self.old.offsets.each command }
        ensures bands { self.new.bands.each ≡ bands_after self.old.bands.each command }
    {
        match command {
            Command::Queue(samples) => Some(Ok(self.choose(Base::Queue(samples)))),
            Command::Latch => Some(Ok(self.choose(Base::Latch))),
            Command::Trim { channel, offset } => {
                self.base = Some(self.base());
                Some(self.offsets.set(channel, offset).map(|()| Answer::Done))
            }
            Command::Clip { channel, low, high } => {
                self.base = Some(self.base());
                Some(self.bands.set(channel, low, high).map(|()| Answer::Done))
            }
            _ => None,
        }
    }

    fn choose(&mut self, base: Base) -> Answer
        ensures answer { result ≡ (if is_none self.old.base then Answer.Done else Answer.Unknown) }
        ensures base { self.new.base ≡ Some (unwrap_or self.old.base base) }
        ensures offsets { self.new.offsets.each ≡ self.old.offsets.each }
        ensures bands { self.new.bands.each ≡ self.old.bands.each }
    {
        if self.base.is_some() {
            return Answer::Unknown;
        }
        self.base = Some(base);
        Answer::Done
    }
}
