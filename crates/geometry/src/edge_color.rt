// The colour of an edge, geometry/edge_color.rs: the channels that it feeds. Bit 0 is red, bit 1 green, bit 2 blue.
ghost use Rattle.std.specs.Prelude.{◌≡◌};
ghost use Rattle.geometry.specs.EdgeColor.{bits_of, from_bits, has_red, has_green, has_blue, has_channel};

#[derive(Clone, Copy, PartialEq, Eq)]
pub enum EdgeColor {
    Black,
    Red,
    Green,
    Yellow,
    Blue,
    Magenta,
    Cyan,
    White,
}

// By hand: its law says which colour it is.
impl Default for EdgeColor {
    ghost use Rattle.geometry.specs.declared.edge_color.EdgeColor.{EdgeColor};

    ghost is_default = { λ color. color ≡ EdgeColor.White };

    fn default() -> EdgeColor {
        EdgeColor::White
    }
}

impl EdgeColor {
    pub fn bits(self) -> u8
        ensures { result ≡ bits_of self }
    {
        self as u8
    }

    // The colour of the three low bits of b.
    pub fn from_bits(b: u8) -> EdgeColor
        ensures { result ≡ from_bits b }
    {
        match b % 8 {
            0 => EdgeColor::Black,
            1 => EdgeColor::Red,
            2 => EdgeColor::Green,
            3 => EdgeColor::Yellow,
            4 => EdgeColor::Blue,
            5 => EdgeColor::Magenta,
            6 => EdgeColor::Cyan,
            _ => EdgeColor::White,
        }
    }

    // The source's question for each channel.
    pub fn has_red(self) -> bool
        ensures { result ≡ has_red self }
    {
        self.bits() % 2 == 1
    }

    pub fn has_green(self) -> bool
        ensures { result ≡ has_green self }
    {
        self.bits() / 2 % 2 == 1
    }

    pub fn has_blue(self) -> bool
        ensures { result ≡ has_blue self }
    {
        self.bits() / 4 % 2 == 1
    }

    // Channel i, by the source's number (0 red, 1 green, 2 blue); there is no other.
    pub fn has_channel(self, i: usize) -> bool
        ensures { result ≡ has_channel self i }
    {
        match i {
            0 => self.has_red(),
            1 => self.has_green(),
            2 => self.has_blue(),
            _ => false,
        }
    }
}
