//! What is kept of a layer.

ghost use Rattle.std.specs.Prelude.{◌≡◌};

/// What a reader of a layer keeps, beside the file function and how many flashes and contours there are of each kind.
#[derive(Clone, Copy)]
pub enum Keep {
    /// Commands, and flashes and pads as the strict profile has them.
    Layer,
    /// Pads alone.
    Pads,
    /// Flashes and contours, pads among them.
    Rows,
    /// Flashes and contours, and the first 100,001 parts of what is drawn.
    RowsAndDrawn,
}

impl Keep {
    ghost use Rattle.layer_features.specs.Kept.{keeps_commands, keeps_drawn, keeps_rows};

    /// Whether commands are kept.
    pub fn commands(self) -> bool
        ensures { result ≡ keeps_commands self }
    {
        matches!(self, Keep::Layer)
    }

    /// Whether flashes and contours are kept.
    pub fn rows(self) -> bool
        ensures { result ≡ keeps_rows self }
    {
        matches!(self, Keep::Rows | Keep::RowsAndDrawn)
    }

    /// Whether what is drawn is kept.
    pub fn draws(self) -> bool
        ensures { result ≡ keeps_drawn self }
    {
        matches!(self, Keep::RowsAndDrawn)
    }
}
