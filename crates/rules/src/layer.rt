//! The layers that refuse.

ghost use Rattle.std.specs.Prelude.{◌≡◌};
ghost use Rattle.rules.specs.Refusals.{layer_byte};

/// The layer that a refusal comes from. Report lines show it by its number.
#[derive(Clone, Copy, PartialEq, Eq, Debug)]
pub enum Layer {
    Reader = 1,
    Case = 2,
    Finder = 3,
    Decider = 4,
}

impl From<Layer> for u8 {
    ghost from_gives = { λ layer byte. byte ≡ layer_byte layer };

    fn from(layer: Layer) -> u8 {
        layer as u8
    }
}
