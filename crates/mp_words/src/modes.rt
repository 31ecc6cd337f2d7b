//! The table of modes.
/// What the program can be asked to do.
#[derive(Clone, Copy, Debug, PartialEq, Eq)]
pub enum Mode {
    Preprocess,
    Reconstruct,
    Evaluate,
    Workload,
    Upgrade,
}

impl Mode {
    ghost use Rattle.std.specs.Prelude.{◌≡◌, map};
    ghost use Rattle.mp_words.specs.Modes.{mode_word, options_of};

    /// The word of the mode.
    pub fn word(self) -> &'static str
        ensures { result.now ≡ mode_word self }
    {
        match self {
            Mode::Preprocess => "preprocess",
            Mode::Reconstruct => "reconstruct",
            Mode::Evaluate => "evaluate",
            Mode::Workload => "workload",
            Mode::Upgrade => "upgrade",
        }
    }

    /// The names of the options that the mode has.
    pub fn options(self) -> &'static [&'static str]
        ensures { map (λ s. s.now) result.now ≡ options_of self }
    {
        match self {
            Mode::Preprocess => &["techniques", "mapfile", "form", "merge", "mapversion"],
            Mode::Reconstruct => &["mapfile", "original", "values"],
            Mode::Evaluate => &["solution"],
            Mode::Workload => &["techniques"],
            Mode::Upgrade => &["mapfile"],
        }
    }
}
